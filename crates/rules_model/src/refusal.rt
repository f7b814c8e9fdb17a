use text_types::Text;

/// The table that is refused, and the least code that it breaks: the number in U1 to U8. The name is
/// `keys.T`, `updater 1` or `optimistic 1`, and empty where no table by itself is at fault.
#[derive(Drop)]
pub struct Refusal {
    pub code: u8,
    pub name: Text,
}

use text_types::Text;

/// Why JSON is no value.
#[derive(Debug, Drop)]
pub enum JsonError {
    Memory,
    /// A number isn't whole. The names and indexes that lead to the first one are joined by dots.
    NotWhole { path: Text },
}

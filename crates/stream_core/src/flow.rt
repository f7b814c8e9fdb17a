/// What an exchange gives: an operation that goes down, a result that goes up, or a command that
/// joins the queue of commands.
#[derive(Debug, Drop, PartialEq)]
pub enum Flow<D, U, C> {
    Down(D),
    Up(U),
    Again(C),
}

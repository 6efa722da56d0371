//! Why a call ends without its lines.

use safl_tool::refusal::Refusal;

#[derive(Drop)]
pub enum Stop<'a> {
    /// It is refused as `safl` refuses it.
    Refused(Refusal<'a>),
    /// A name is none of main's parameters: the line that says so.
    Nameless(Vec<u8>),
}

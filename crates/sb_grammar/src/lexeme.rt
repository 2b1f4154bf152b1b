use sb_lex::TokenKind;
use sqlite_items::Items;

/// A token with what it stands for: the spelling of a word, variable, number or sign; what stands
/// between the quotes or brackets of a text or name, with doubled ones written once; the bytes of a
/// binary literal.
#[derive(Drop)]
pub struct Lexeme {
    pub kind: TokenKind,
    pub value: Items<u8>,
    pub start: usize,
    pub end: usize,
}

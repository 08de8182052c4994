/// A token of a locale. A caller pins its token while it reads shared objects.
#[derive(Clone, Copy, Debug, PartialEq, Eq)]
pub struct Token {
    pub locale: u8,
    /// Its number in the locale, from 0.
    pub number: u32,
}

// The characters that code asks for by name, one place for all of them.

#[derive(Clone, Copy)]
pub struct Char {}

impl Char {
    pub const TAB: u32 = b'\t' as u32;

    pub const LINE_FEED: u32 = b'\n' as u32;

    pub const CARRIAGE_RETURN: u32 = b'\r' as u32;

    pub const SPACE: u32 = b' ' as u32;

    pub const EXCLAMATION_MARK: u32 = b'!' as u32;

    pub const QUOTE: u32 = b'"' as u32;

    pub const APOSTROPHE: u32 = b'\'' as u32;

    pub const LEFT_PAREN: u32 = b'(' as u32;

    pub const RIGHT_PAREN: u32 = b')' as u32;

    pub const STAR: u32 = b'*' as u32;

    pub const PLUS: u32 = b'+' as u32;

    pub const COMMA: u32 = b',' as u32;

    pub const MINUS: u32 = b'-' as u32;

    pub const DOT: u32 = b'.' as u32;

    pub const SLASH: u32 = b'/' as u32;

    pub const DIGIT_0: u32 = b'0' as u32;

    pub const DIGIT_9: u32 = b'9' as u32;

    pub const COLON: u32 = b':' as u32;

    pub const LESS: u32 = b'<' as u32;

    pub const EQUAL: u32 = b'=' as u32;

    pub const GREATER: u32 = b'>' as u32;

    pub const AT: u32 = b'@' as u32;

    pub const CAPITAL_A: u32 = b'A' as u32;

    pub const CAPITAL_E: u32 = b'E' as u32;

    pub const CAPITAL_F: u32 = b'F' as u32;

    pub const CAPITAL_R: u32 = b'R' as u32;

    pub const CAPITAL_U: u32 = b'U' as u32;

    pub const LEFT_BRACKET: u32 = b'[' as u32;

    pub const BACKSLASH: u32 = b'\\' as u32;

    pub const RIGHT_BRACKET: u32 = b']' as u32;

    pub const SMALL_A: u32 = b'a' as u32;

    pub const SMALL_B: u32 = b'b' as u32;

    pub const SMALL_C: u32 = b'c' as u32;

    pub const SMALL_E: u32 = b'e' as u32;

    pub const SMALL_F: u32 = b'f' as u32;

    pub const SMALL_I: u32 = b'i' as u32;

    pub const SMALL_L: u32 = b'l' as u32;

    pub const SMALL_N: u32 = b'n' as u32;

    pub const SMALL_O: u32 = b'o' as u32;

    pub const SMALL_R: u32 = b'r' as u32;

    pub const SMALL_S: u32 = b's' as u32;

    pub const SMALL_T: u32 = b't' as u32;

    pub const SMALL_U: u32 = b'u' as u32;

    pub const SMALL_Z: u32 = b'z' as u32;

    pub const LEFT_BRACE: u32 = b'{' as u32;

    pub const RIGHT_BRACE: u32 = b'}' as u32;
}

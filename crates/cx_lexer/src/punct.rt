ghost use Rattle.std.specs.Prelude.{◌≡◌, ◌≤◌, length};
ghost use Rattle.cx_lexer.specs.Punct.{is_punct};
ghost use Rattle.cx_lexer.specs.Scan.{punct_length};

use crate::table::is_in_table;

static PUNCTS: [&[u8]; 50] = [
    b"{", b"}", b"(", b")", b"[", b"]", b";", b":", b"::", b",", b".", b"->", b"?", b"+", b"-",
    b"*", b"/", b"%", b"&", b"|", b"^", b"~", b"!", b"=", b"==", b"!=", b"<", b">", b"<=", b">=",
    b"<<", b">>", b"&&", b"||", b"++", b"--", b"+=", b"-=", b"*=", b"/=", b"%=", b"&=", b"|=",
    b"^=", b"<<=", b">>=", b"<=>", b"...", b".*", b"->*",
];

/// Whether the bytes are an operator or a punctuator.
fn is_punct(bytes: &[u8]) -> bool
    ensures { result ≡ is_punct bytes.now }
{
    is_in_table(&PUNCTS, bytes)
}

/// The length of the longest operator or punctuator at the front; 0 where there is none.
#[tactic(auto, using(crate::proofs::Puncts::punct_within), unfolding(crate::specs::Scan::punct_length))]
pub fn punct_length(rest: &[u8]) -> usize
    ensures length { result ≡ punct_length rest.now }
    ensures within { result ≤ length rest.now }
{
    if rest.len() >= 3 && is_punct(&rest[..3]) {
        3
    } else if rest.len() >= 2 && is_punct(&rest[..2]) {
        2
    } else if rest.len() >= 1 && is_punct(&rest[..1]) {
        1
    } else {
        0
    }
}

//! The tokens of a text.

ghost use Rattle.std.specs.Prelude.{◌≡◌, ◌∷◌, ◌++◌, [], IfOk, IfSome, None, MatchOption, ⊤, ℕ, ◌<◌, ◌^◌, ◌+◌, if◌then◌else◌};
ghost use Rattle.std.specs.List.{list_all};
ghost use Rattle.std.specs.Option.{option_map};
ghost use Rattle.breakpoints.specs.Scanning.{sign_in, sign_of_byte, sign_of_pair, SpelledOrNot, SpellsOrNot, Takes};
ghost use Rattle.byte_strings.specs.Blanks.{is_blank};
ghost use Rattle.rv32i.specs.Names.{Names};
ghost use Rattle.breakpoints.specs.Tokens.{is_lexeme, is_sign, is_sign_byte, is_sign_pair, is_word, is_word_byte, Spells};

use crate::token::{Bracket, Infix, Token};
use byte_strings::is_blank;
use numerals::magnitude;
use rv32i::{Reg, reg_in};
use std::alloc::{AllocError, Global};

/// The tokens of a text. `None`: it has a word or a sign that is no token.
pub(crate) fn tokens(alloc: Global, text: &[u8]) -> Result<Option<Vec<Token>>, AllocError>
    ensures { IfOk result (λ found. SpelledOrNot text.now
        (option_map (λ tokens. tokens.items) found)) }
{
    let mut tokens = Vec::new(alloc);
    let mut start = 0;
    for end in 0..text.len() {
        if !is_lexeme(&text[start..=end]) {
            if !take(&mut tokens, &text[start..end])? {
                return Ok(None);
            }
            start = next_start(text[end], end);
        }
    }
    if take(&mut tokens, &text[start..])? {
        Ok(Some(tokens))
    } else {
        Ok(None)
    }
}

// Where the next lexeme starts, where the one before it has ended before this byte.
fn next_start(byte: u8, index: usize) -> usize
    requires { index < 2 ^ 63 }
    ensures { result ≡ (if is_blank byte then index + 1 else index) }
{
    if is_blank(byte) { index + 1 } else { index }
}

// Appends the token that a lexeme spells; none where none has begun. `false`: it spells no token.
fn take(tokens: &mut Vec<Token>, lexeme: &[u8]) -> Result<bool, AllocError>
    ensures { IfOk result (λ taken. Takes lexeme.now tokens.old.items tokens.new.items taken) }
{
    if lexeme.is_empty() {
        return Ok(true);
    }
    match token_in(lexeme) {
        Some(token) => {
            tokens.push(token)?;
            Ok(true)
        }
        None => Ok(false),
    }
}

// Whether bytes are a word or a sign, whatever it may mean.
fn is_lexeme(bytes: &[u8]) -> bool
    ensures { result ≡ is_lexeme bytes.now }
{
    is_word(bytes) || is_sign(bytes)
}

fn is_word(bytes: &[u8]) -> bool
    ensures { result ≡ is_word bytes.now }
{
    match bytes {
        [] => false,
        _ => are_word_bytes(bytes),
    }
}

fn are_word_bytes(bytes: &[u8]) -> bool
    ensures { result ≡ list_all is_word_byte bytes.now }
{
    bytes
        .iter()
        .all(|b| b.is_ascii_digit() || b.is_ascii_alphabetic())
}

fn is_sign(bytes: &[u8]) -> bool
    ensures { result ≡ is_sign bytes.now }
{
    match bytes {
        [a] => is_sign_byte(*a),
        [a, b] => is_sign_pair(*a, *b),
        _ => false,
    }
}

fn is_sign_byte(a: u8) -> bool
    ensures { result ≡ is_sign_byte a }
{
    match a {
        b'|'
        | b'^'
        | b'&'
        | b'<'
        | b'>'
        | b'+'
        | b'-'
        | b'*'
        | b'~'
        | b'!'
        | b'('
        | b')'
        | b'['
        | b']'
        | b'=' => true,
        _ => false,
    }
}

fn is_sign_pair(a: u8, b: u8) -> bool
    ensures { result ≡ is_sign_pair a b }
{
    match a {
        b'|' => b == b'|',
        b'&' => b == b'&',
        b'=' | b'!' => b == b'=',
        b'<' | b'>' => b == a || b == b'=',
        _ => false,
    }
}

// The token that a word or a sign spells.
fn token_in(bytes: &[u8]) -> Option<Token>
    ensures { SpellsOrNot bytes.now result }
{
    match sign_in(bytes) {
        Some(token) => Some(token),
        None => word_in(bytes),
    }
}

fn sign_in(bytes: &[u8]) -> Option<Token>
    ensures token { result ≡ sign_in bytes.now }
    ensures spells { IfSome result (λ token. Spells token bytes.now) }
{
    match bytes {
        [a] => sign_of_byte(*a),
        [a, b] => sign_of_pair(*a, *b),
        _ => None,
    }
}

fn sign_of_byte(a: u8) -> Option<Token>
    ensures token { result ≡ sign_of_byte a }
    ensures spells { IfSome result (λ token. Spells token (a ∷ [])) }
{
    match a {
        b'|' => Some(Token::Infix(Infix::Or)),
        b'^' => Some(Token::Infix(Infix::Xor)),
        b'&' => Some(Token::Infix(Infix::And)),
        b'<' => Some(Token::Infix(Infix::Less)),
        b'>' => Some(Token::Infix(Infix::Greater)),
        b'+' => Some(Token::Infix(Infix::Plus)),
        b'-' => Some(Token::Infix(Infix::Minus)),
        b'*' => Some(Token::Infix(Infix::Times)),
        b'~' => Some(Token::Tilde),
        b'!' => Some(Token::Bang),
        b'(' => Some(Token::Open(Bracket::Round)),
        b')' => Some(Token::Close(Bracket::Round)),
        b'[' => Some(Token::Open(Bracket::Square)),
        b']' => Some(Token::Close(Bracket::Square)),
        _ => None,
    }
}

fn sign_of_pair(a: u8, b: u8) -> Option<Token>
    ensures token { result ≡ sign_of_pair a b }
    ensures spells { IfSome result (λ token. Spells token (a ∷ b ∷ [])) }
{
    match (a, b) {
        (b'|', b'|') => Some(Token::Infix(Infix::OrElse)),
        (b'&', b'&') => Some(Token::Infix(Infix::AndThen)),
        (b'=', b'=') => Some(Token::Infix(Infix::Equal)),
        (b'!', b'=') => Some(Token::Infix(Infix::NotEqual)),
        (b'<', b'<') => Some(Token::Infix(Infix::ShiftLeft)),
        (b'<', b'=') => Some(Token::Infix(Infix::LessEqual)),
        (b'>', b'>') => Some(Token::Infix(Infix::ShiftRight)),
        (b'>', b'=') => Some(Token::Infix(Infix::GreaterEqual)),
        _ => None,
    }
}

// The number, the register or the pc that a word means.
fn word_in(bytes: &[u8]) -> Option<Token>
    requires { sign_in bytes.now ≡ None }
    ensures { SpellsOrNot bytes.now result }
{
    if bytes == b"pc".as_slice() {
        return Some(Token::Pc);
    }
    if let Ok(number) = magnitude(bytes) {
        return Some(Token::Number(number));
    }
    register_in(bytes)
}

// The register that a word names.
fn register_in(bytes: &[u8]) -> Option<Token>
    ensures names { IfSome result (λ token. Spells token bytes.now) }
    ensures none { MatchOption result ((r : ℕ) → Names bytes.now r → ⊥) (λ token. ⊤) }
{
    match reg_in(bytes) {
        Some(number) => Some(Token::Register(Reg::new(number as u8))),
        None => None,
    }
}

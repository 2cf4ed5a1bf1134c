//! The tokens of a text.

ghost use Rattle.std.specs.Prelude.{◌≡◌, ◌+◌, ◌-◌, ◌<◌, ◌≤◌, length, drop, take, IfOk, true, slice_index};
ghost use Rattle.decimal_coords.specs.DecimalOfText.{decimal_of_text};
ghost use Rattle.expr_lang.specs.Lexical as lexical;
ghost use Rattle.text_bytes.specs.Bytes.{is_letter, is_digit};
ghost use Rattle.expr_lang.specs.Tokens.{tokens_of};

use crate::counts::{number_len, word_len};
use crate::op::BinaryOp;
use crate::token::{Lexeme, Placed, Token};
use decimal_coords::parse_decimal;
use file_devices::Name;
use std::alloc::{AllocError, Global};
use text_bytes::{is_digit, is_letter, is_space};

/// The operator of two bytes.
fn pair_op(first: u8, second: u8) -> Option<BinaryOp>
    ensures { result ≡ lexical.pair_op first second }
{
    match (first, second) {
        (b'|', b'|') => Some(BinaryOp::Or),
        (b'&', b'&') => Some(BinaryOp::And),
        (b'=', b'=') => Some(BinaryOp::Equal),
        (b'!', b'=') => Some(BinaryOp::Different),
        (b'<', b'=') => Some(BinaryOp::AtMost),
        (b'>', b'=') => Some(BinaryOp::AtLeast),
        _ => None,
    }
}

/// The token of one byte.
fn byte_token(byte: u8) -> Token
    ensures { result ≡ lexical.byte_token byte }
{
    match byte {
        b'<' => Token::Operator(BinaryOp::Below),
        b'>' => Token::Operator(BinaryOp::Above),
        b'+' => Token::Operator(BinaryOp::Plus),
        b'-' => Token::Operator(BinaryOp::Minus),
        b'*' => Token::Operator(BinaryOp::Times),
        b'/' => Token::Operator(BinaryOp::Over),
        b'!' => Token::Not,
        b'(' => Token::Open,
        b')' => Token::Close,
        b'=' => Token::Assign,
        _ => Token::Other,
    }
}

/// The token of the first two bytes, or else of the first.
fn symbol(bytes: &[u8]) -> Lexeme
    requires { 0 < length bytes.now }
    ensures token { result ≡ lexical.first_symbol bytes.now }
    ensures within { result.size ≤ length bytes.now }
    ensures some { 0 < result.size }
{
    if bytes.len() > 1 {
        if let Some(op) = pair_op(bytes[0], bytes[1]) {
            return Lexeme {
                token: Token::Operator(op),
                size: 2,
            };
        }
    }
    Lexeme {
        token: byte_token(bytes[0]),
        size: 1,
    }
}

/// The bytes from a place on.
fn rest_of(text: &str, at: usize) -> &[u8]
    requires { at ≤ length text.now }
    ensures { result.now ≡ drop at text.now }
{
    &text.as_bytes()[at..]
}

/// The bytes of a token, of which the first and the last are ASCII.
fn piece(text: &str, at: usize, size: usize) -> &str
    requires some { 0 < size }
    requires within { at + size ≤ length text.now }
    requires first { slice_index text.now at < 128 }
    requires last { slice_index text.now (at + size - 1) < 128 }
    ensures { result.now ≡ take size (drop at text.now) }
{
    &text[at..at + size]
}

/// The token of a word.
fn word_token(alloc: Global, word: &str) -> Result<Token, AllocError>
    ensures { IfOk result (λ t. t ≡ lexical.word_token word.now) }
{
    if word.eq_ignore_ascii_case("WHERE") {
        return Ok(Token::Where);
    }
    Ok(Token::Name(Name::new(String::from_str(alloc, word)?)))
}

/// The token of digits, perhaps with a point between them.
fn number_token(number: &str) -> Token
    ensures { result ≡ lexical.number_token (decimal_of_text number.now) }
{
    match parse_decimal(number) {
        Ok(n) => Token::Number(n),
        Err(_) => Token::BadNumber,
    }
}

/// The token that begins at a letter.
fn word_at(alloc: Global, text: &str, at: usize) -> Result<Lexeme, AllocError>
    requires within { at < length text.now }
    requires letter { is_letter (slice_index text.now at) ≡ true }
    ensures token { IfOk result (λ t. t ≡ lexical.word_lexeme (drop at text.now)) }
    ensures within { IfOk result (λ t. at + t.size ≤ length text.now) }
    ensures some { IfOk result (λ t. 0 < t.size) }
{
    let size = word_len(rest_of(text, at));
    let token = word_token(alloc, piece(text, at, size))?;
    Ok(Lexeme { token, size })
}

/// The token that begins at a digit.
fn number_at(text: &str, at: usize) -> Lexeme
    requires within { at < length text.now }
    requires digit { is_digit (slice_index text.now at) ≡ true }
    ensures token { result ≡ lexical.number_lexeme (drop at text.now) }
    ensures within { at + result.size ≤ length text.now }
    ensures some { 0 < result.size }
{
    let size = number_len(rest_of(text, at));
    let token = number_token(piece(text, at, size));
    Lexeme { token, size }
}

/// The first token from a place on.
fn first_token(alloc: Global, text: &str, at: usize) -> Result<Lexeme, AllocError>
    requires { at < length text.now }
    ensures token { IfOk result (λ t. t ≡ lexical.first_token (drop at text.now)) }
    ensures within { IfOk result (λ t. at + t.size ≤ length text.now) }
    ensures some { IfOk result (λ t. 0 < t.size) }
{
    let bytes = text.as_bytes();
    if is_letter(bytes[at]) {
        return word_at(alloc, text, at);
    }
    if is_digit(bytes[at]) {
        return Ok(number_at(text, at));
    }
    Ok(symbol(rest_of(text, at)))
}

/// The tokens of a text, one after another.
fn lexed(alloc: Global, text: &str) -> Result<Vec<Placed>, AllocError>
    ensures { IfOk result (λ ts. lexical.IsLexed 0 text.now ts.items) }
{
    let bytes = text.as_bytes();
    let mut out = Vec::new(alloc);
    let mut at = 0;
    while at < bytes.len() {
        if is_space(bytes[at]) {
            at += 1;
        } else {
            let first = first_token(alloc, text, at)?;
            out.push(Placed {
                at,
                token: first.token,
            })?;
            at += first.size;
        }
    }
    Ok(out)
}

/// The tokens of a text.
#[tactic(auto, using(crate::proofs::Lexing::tokens_are))]
pub fn tokens(alloc: Global, text: &str) -> Result<Vec<Placed>, AllocError>
    ensures lexed { IfOk result (λ ts. lexical.IsLexed 0 text.now ts.items) }
    ensures value { IfOk result (λ ts. tokens_of text.now ≡ ts.items) }
{
    lexed(alloc, text)
}

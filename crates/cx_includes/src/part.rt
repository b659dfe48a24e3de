use cx_lexer::LexFault;
use cx_syntax::Token;

/// A place in a file for a reader: its line, from 1, and the byte in that line, from 1. This project's own.
#[derive(Clone, Copy, Debug, PartialEq, Eq)]
pub struct Spot {
    /// The line, from 1.
    pub line: u32,
    /// The byte in the line, from 1.
    pub column: u32,
}

/// The bytes of a file from `start` to before `end`. This project's own.
#[derive(Clone, Copy, Debug, PartialEq, Eq)]
pub struct Span {
    /// The place of the first byte.
    pub start: u32,
    /// The place behind the last one.
    pub end: u32,
}

/// What a directive line says ([cpp.include], [cpp.pragma]).
#[derive(Clone, Copy, Debug, PartialEq, Eq)]
pub enum Directive {
    /// `#pragma once`.
    Once,
    /// `#include <contracts>`.
    Contracts,
    /// `#include <cstdio>`.
    Cstdio,
    /// `#include "NAME"`, with the bytes of the name.
    File(Span),
}

/// What stands in a file behind what was read of it. This project's own.
#[derive(Clone, Copy, Debug, PartialEq, Eq)]
pub enum Part {
    /// A token with its place.
    Token(Token, Spot),
    /// A directive with its line.
    Line(Directive, u32),
    /// A directive line that isn't one of the four forms.
    BadLine(u32),
    /// A lexical fault with its place; nothing is read behind it.
    Fault(LexFault, Spot),
}

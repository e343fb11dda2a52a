//! What the faults of an input are called.

ghost use Rattle.std.specs.Prelude.{◌≡◌};
ghost use Rattle.report.specs.Lines.{binary_text, kind_text};

use cnf_base::{BinaryFault, TextFault};

/// What is wrong at a place of a text.
pub fn text_kind(kind: TextFault) -> &'static str
    ensures { result.now ≡ kind_text kind }
{
    match kind {
        TextFault::BadHeader => "bad header",
        TextFault::NumberTooLarge => "number too large",
        TextFault::BadToken => "bad token",
        TextFault::LiteralOutOfRange => "literal out of range",
        TextFault::TooManyClauses => "too many clauses",
        TextFault::TooFewClauses => "too few clauses",
        TextFault::UnterminatedClause => "unterminated clause",
        TextFault::BadLine => "bad line",
        TextFault::SecondStatus => "second status line",
        TextFault::NoStatus => "no status line",
        TextFault::NotClaimed => "no model claimed",
        TextFault::AfterEnd => "token after the end of the model",
        TextFault::UnterminatedModel => "unterminated model",
        TextFault::Complement => "literal and its complement",
        TextFault::LiteralTooLarge => "literal too large",
        TextFault::IdTooLarge => "identifier too large",
        TextFault::UnterminatedStep => "unterminated step",
    }
}

/// What is wrong at a byte of a binary proof.
pub fn binary_kind(kind: BinaryFault) -> &'static str
    ensures { result.now ≡ binary_text kind }
{
    match kind {
        BinaryFault::LiteralTooLarge => text_kind(TextFault::LiteralTooLarge),
        BinaryFault::UnterminatedStep => text_kind(TextFault::UnterminatedStep),
        BinaryFault::BadTag => "bad tag",
        BinaryFault::BadNumber => "bad number",
    }
}

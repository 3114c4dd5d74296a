//! Deposits as text.
ghost use Rattle.std.specs.Prelude.{◌≡◌, [], ◌++◌, map, MatchOption, OnSome, IfOk, string_bytes, codes};
ghost use Rattle.std.specs.{Fmt.decimal, List.flat_map};
ghost use Rattle.book.specs.Values.{listed_view};
ghost use Rattle.service.specs.Answers.{listed_line, line_feed};

use crate::answer::{ShortText, push_number};
use arrayvec::ArrayString;
use book::Listed;
use gentime::GenTime;
use std::alloc::{AllocError, Global};

/// A deposit's number on a line.
pub(crate) fn number_line(number: u64) -> ShortText
    ensures { result.bytes ≡ decimal number ++ line_feed }
{
    let mut line = ArrayString::new();
    push_number(&mut line, number);
    line.push_str("\n");
    line
}

/// Number, owner and reference, and the space behind them.
fn line_front(
    alloc: Global,
    number: u64,
    owner: &str,
    reference: &str,
) -> Result<String, AllocError>
    ensures { IfOk result (λ text. string_bytes text
        ≡ decimal number ++ codes " " ++ owner.now ++ codes " " ++ reference.now ++ codes " ") }
{
    format!(in alloc; "{number} {owner} {reference} ")
}

/// Appends the line of a deposit. None where memory runs out, or where the genTime is no moment.
fn append_line(alloc: Global, lines: &mut Vec<u8>, row: &Listed) -> Option<()>
    ensures { OnSome result (lines.new.items ≡ lines.old.items ++ listed_line (listed_view row.now)) }
{
    let front = line_front(
        alloc,
        row.number,
        row.owner.as_str(),
        row.reference.as_str(),
    )
    .ok()?;
    let moment = GenTime::from_micros(i64::try_from(row.gen_time).ok()?).ok()?;
    let time = moment.write(alloc, 6).ok()?;
    lines.extend_from_slice(front.as_bytes()).ok()?;
    lines.extend_from_slice(&time).ok()?;
    lines.push(b'\n').ok()
}

/// A line for each deposit, in their order. None where memory runs out, or where a genTime is no moment; where there is
/// no deposit it takes no memory.
pub(crate) fn listed_lines(alloc: Global, rows: &[Listed]) -> Option<Vec<u8>>
    ensures { MatchOption result (map listed_view rows.now ≡ [] → ⊥)
        (λ lines. lines.items ≡ flat_map listed_line (map listed_view rows.now)) }
{
    let mut lines = Vec::new(alloc);
    for row in rows {
        append_line(alloc, &mut lines, row)?;
    }
    Some(lines)
}

// The pieces of a comparison's text, each into a lent buffer: what a comparison answers, then what one step after the other does.
ghost use Rattle.std.specs.Prelude.{Some};
ghost use Rattle.saying.specs.Said.{Said};
ghost use Rattle.listing.specs.Answers.{TextTold};
ghost use Rattle.comparing.specs.Answers.{head_of, compared_text, met_text, answered_text, sided_text};
ghost use Rattle.comparing.specs.inner.Piece.{piece_text};

use crate::differ::Compared;
use crate::pair::{Line, Met};
use crate::says::{say_both, say_first, say_one, say_orders, say_pair, say_refused};
use crate::sides::Sided;
use kind::{Fault, Refusal};

// One of them; the end has no bytes.
#[derive(Clone, Copy)]
enum Piece {
    Head(Compared),
    Position(Met),
    End,
    Refusal(Sided),
}

// The head of two rolls that read.
fn say_head(out: &mut [u8], room: usize, c: Compared) -> Option<usize>
    ensures { Said room out.old (Some 0) (head_of c) result out.new }
{
    let l = c.cursor.left.cursor;
    let r = c.cursor.right.cursor;
    let a = c.left;
    let b = c.right;
    let first = say_first(out, room, c.differ, c.kinds, l.kind, r.kind);
    let second = say_orders(out, room, first, c.orders, l.kind, a, r.kind, b);
    say_pair(
        out,
        room,
        second,
        c.terms,
        b"terms ",
        l.left as u64,
        r.left as u64,
    )
}

// The line of a position.
fn say_met(out: &mut [u8], room: usize, m: Met) -> Option<usize>
    ensures { Said room out.old (Some 0) (met_text m) result out.new }
{
    match m.line {
        Line::Both(left, right) => say_both(out, room, m.number, left, right),
        Line::Left(term) => say_one(out, room, m.number, b": left ", term),
        Line::Right(term) => say_one(out, room, m.number, b": right ", term),
    }
}

fn say_piece(out: &mut [u8], room: usize, piece: Piece) -> Option<usize>
    ensures { Said room out.old (Some 0) (piece_text piece) result out.new }
{
    match piece {
        Piece::Head(compared) => say_head(out, room, compared),
        Piece::Position(met) => say_met(out, room, met),
        Piece::End => Some(0),
        Piece::Refusal(refused) => say_refused(out, room, refused),
    }
}

// A piece from a start place on, where it has room.
fn told(piece: Piece, out: &mut [u8], start: usize) -> Result<usize, Fault>
    ensures { TextTold (piece_text piece) out.old start result out.new }
{
    if out.len() < start {
        return Err(Fault::from(Refusal::StartBeyondEnd));
    }
    let room = out.len() - start;
    let Some(length) = say_piece(&mut out[0..0], room, piece) else {
        return Err(Fault::from(Refusal::NoRoom));
    };
    say_piece(&mut out[start..], room, piece);
    Ok(length)
}

// The first lines of what a comparison answers, or its refusal's line.
pub fn head(answer: Result<Compared, Sided>, out: &mut [u8], start: usize) -> Result<usize, Fault>
    ensures { TextTold (compared_text answer) out.old start result out.new }
{
    match answer {
        Ok(compared) => told(Piece::Head(compared), out, start),
        Err(refused) => told(Piece::Refusal(refused), out, start),
    }
}

// The line of what a step answers: of a position that differs, of none at the end, or of a refusal.
pub fn line(
    answer: Result<Option<Met>, Sided>,
    out: &mut [u8],
    start: usize,
) -> Result<usize, Fault>
    ensures { TextTold (answered_text answer) out.old start result out.new }
{
    match answer {
        Ok(Some(met)) => told(Piece::Position(met), out, start),
        Ok(None) => told(Piece::End, out, start),
        Err(refused) => told(Piece::Refusal(refused), out, start),
    }
}

// The line of a refusal, which stands alone.
pub fn refusal_line(refused: Sided, out: &mut [u8], start: usize) -> Result<usize, Fault>
    ensures { TextTold (sided_text refused) out.old start result out.new }
{
    told(Piece::Refusal(refused), out, start)
}

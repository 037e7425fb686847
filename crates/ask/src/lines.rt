// Standard input, line by line, by way of one buffer that holds a longest line and more.
ghost use Rattle.std.specs.Prelude.{◌+◌, ◌≤◌, length};

use std::io::Read;

// The most bytes of a line.
pub(crate) const MOST_LINE: usize = 2097152;

// What came: a line, one that is too long, none without reading on, or the input's end.
#[derive(Clone, Copy)]
pub(crate) enum Found {
    Line,
    Lost,
    More,
    End,
}

// The line that was found stands from `start` to `stop`. The next begins at `begun`; it has no end up to `seen`, and up
// to `end` the buffer is filled. Of a line that is `lost` too much came already.
#[derive(Clone, Copy)]
pub(crate) struct State {
    pub(crate) found: Found,
    pub(crate) start: usize,
    pub(crate) stop: usize,
    pub(crate) begun: usize,
    pub(crate) seen: usize,
    pub(crate) end: usize,
    pub(crate) lost: bool,
    pub(crate) ended: bool,
}

// A line that has begun, of which `n` bytes stand at the front.
pub(crate) fn carry(n: usize, lost: bool) -> State {
    State {
        found: Found::More,
        start: 0,
        stop: 0,
        begun: 0,
        seen: n,
        end: n,
        lost,
        ended: false,
    }
}

// The next line. Where it has not come whole, the answer is `More`, and the call after that reads on.
pub(crate) fn next<R: Read>(from: &mut R, input: &mut [u8], s: State) -> State {
    let found = s.found;
    if s.ended {
        return finish(s, Found::End);
    }
    match found {
        Found::More => more(from, input, s),
        Found::Line => look(input, s),
        Found::Lost => look(input, s),
        Found::End => s,
    }
}

// The line that was found.
pub(crate) fn line(input: &[u8], s: State) -> &[u8] {
    let start = s.start;
    let stop = s.stop;
    if stop < start || input.len() < stop {
        return &input[0..0];
    }
    &input[start..stop]
}

// Looks for the end of the line that has begun.
fn look(input: &[u8], s: State) -> State {
    let end = s.end;
    let stop = line_end(input, s.seen, end);
    if end <= stop {
        return State {
            found: Found::More,
            start: 0,
            stop: 0,
            begun: s.begun,
            seen: end,
            end,
            lost: s.lost,
            ended: false,
        };
    }
    State {
        found: kept(s.lost, s.begun, stop),
        start: s.begun,
        stop,
        begun: stop + 1,
        seen: stop + 1,
        end,
        lost: false,
        ended: false,
    }
}

// A line is lost where it is too long (D-51).
fn kept(lost: bool, start: usize, stop: usize) -> Found {
    if lost {
        return Found::Lost;
    }
    if start <= stop && stop - start <= MOST_LINE {
        return Found::Line;
    }
    Found::Lost
}

// The place of the first line feed from a place on, or the end.
fn line_end(input: &[u8], from: usize, end: usize) -> usize {
    if input.len() < end {
        return end;
    }
    for i in from..end {
        if input[i] == b'\n' {
            return i;
        }
    }
    end
}

// Reads on, and looks for the line's end again.
fn more<R: Read>(from: &mut R, input: &mut [u8], s: State) -> State {
    let t = carried(input, s);
    let n = fill(from, input, t.end);
    if n == 0 {
        return last(t);
    }
    let mut longer = t;
    longer.end = n;
    look(input, longer)
}

// Reads once after the first `end` bytes, and answers how many there are then; nought where none came (D-50).
fn fill<R: Read>(from: &mut R, input: &mut [u8], end: usize) -> usize {
    if input.len() < end {
        return 0;
    }
    let n = filled(from, &mut input[end..]);
    if n == 0 {
        return 0;
    }
    end + n
}

// A read that fails counts as the input's end.
fn filled<R: Read>(from: &mut R, rest: &mut [u8]) -> usize
    ensures { result ≤ length rest.old }
{
    match from.read(rest) {
        Ok(n) => n,
        Err(_) => 0,
    }
}

// The line that has begun goes to the front; one that is too long already is lost, with every byte of it.
fn carried(input: &mut [u8], s: State) -> State {
    let start = s.begun;
    let end = s.end;
    if s.lost || end < start || MOST_LINE < end - start {
        return carry(0, true);
    }
    shift(input, start, end);
    carry(end - start, false)
}

fn shift(input: &mut [u8], start: usize, end: usize) {
    if start == 0 || input.len() < end || end < start {
        return;
    }
    input.copy_within(start..end, 0);
}

// The input has ended: the last line, where no line feed ended it.
fn last(s: State) -> State {
    if s.lost {
        return finish(s, Found::Lost);
    }
    if s.end == 0 {
        return finish(s, Found::End);
    }
    finish(s, Found::Line)
}

fn finish(s: State, found: Found) -> State {
    State {
        found,
        start: 0,
        stop: s.end,
        begun: 0,
        seen: 0,
        end: 0,
        lost: false,
        ended: true,
    }
}

// A turn: a line is read by the shapes of questions, answered, and its answer is printed by the forms of answers.
use crate::{answers, forms, lines, questions, shapes, words};
use forms::Told;
use lines::State;
use std::alloc::Global;
use std::io;
use std::io::Write;
use words::Asked;

// Shapes: B, W and P are numbers below 2^8, 2^32 and 2^64, L a buffer's length, G a grouping buffer's, T that of an export, R a roll, S a second one, C a centre, N a count of nuclei
// and as many centres, M a count of primitives and as many, H a count of floats and as many, F a float, * floats, + one number below 2^8 or none, ^ any bytes; the first is the empty line. `questions::of` has their numbers.
pub(crate) fn turn<W: Write>(
    alloc: Global,
    input: &[u8],
    s: State,
    given: &mut [u8],
    floats: &mut [f64],
    lent: &mut [u8],
    out: &mut W,
) -> io::Result<()> {
    let line = lines::line(input, s);
    let asked = shapes::read(
        b"
#^
shell B
shell B L P
component B B W
component B B B B W
expand B B B B B B B B B B B B B
expand B B B B B B B B B B B B B L P
list R
open R
check R
next B B W P R
eval RCCCCF*
table BCCCC
jk P*
jkl P P P P P*
measure B B B B B B B B B B B B B
total B B B B B B B B B B B B B
scales R
expand2 B B B B B B B B B B B B B
expand2 B B B B B B B B B B B B B L P
open2 R
check2 R
next2 B B W P++++++++++++++++++++++++ / R
form2 R
form2 R L P
form1 R
form1 R L P
grouped G RCCCCF*
salvage R
salvage R L P
compare R S
nuclei RCCNF*
contracted RMMH
rootF
small R
small-expand B B B B B B B B B B B B B
small-expand B B B B B B B B B B B B B L P
confirm R
export R
export R T P
import R
import R L P
",
        line,
        given,
        floats,
    );
    answered(alloc, s, asked, line, given, floats, lent, out)
}

// The answer to what is read. A question that says no buffer gets the usual one first, and a larger one where that has no room.
fn answered<W: Write>(
    alloc: Global,
    s: State,
    asked: Asked,
    line: &[u8],
    given: &[u8],
    floats: &mut [f64],
    lent: &mut [u8],
    out: &mut W,
) -> io::Result<()> {
    let room = questions::room(asked);
    if lent.len() < room.said {
        return in_larger(alloc, s, asked, room.size, line, given, floats, out);
    }
    let told = questions::answer(asked, given, floats, lent);
    if lent.len() < answers::wanted(told, room.size) {
        return in_larger(alloc, s, asked, room.size, line, given, floats, out);
    }
    say(answers::heard(s, told), line, lent, floats, out)
}

// The answer to a question that has bytes lent alone, by way of a larger buffer that has the room.
fn in_larger<W: Write>(
    alloc: Global,
    s: State,
    asked: Asked,
    room: usize,
    line: &[u8],
    given: &[u8],
    floats: &[f64],
    out: &mut W,
) -> io::Result<()> {
    let mut bytes = vec![in alloc; 0; room]?;
    let told = questions::answer_in(asked, given, floats, &mut bytes);
    say(answers::heard(s, told), line, &bytes, floats, out)
}

// Prints an answer.
// Forms: # is a number, $ a float's bits, % bytes that were lent in hexadecimal, | a text of them, & the answer's own bytes in
// hexadecimal, ~ in decimal, * a table, < and > floats, ^ the line itself; at ! what waits goes out. `answers` has their numbers.
fn say<W: Write>(
    t: Told,
    line: &[u8],
    bytes: &[u8],
    floats: &[f64],
    out: &mut W,
) -> io::Result<()> {
    forms::print(
        b"^
?
spoiled
refused #
refused # at #
roll # terms # %
shell # %
component &
listing |
opened # # #~ place #
term # #~ next # #
end
value $
table*
J< K>
measured # terms #
total #
total none
scales #
salvaged # terms # kept # anew # count same after none %
salvaged # terms # kept # anew # count same after bytes %
salvaged # terms # kept # anew # count same after unknown %
salvaged # terms # kept # anew # count other after none %
salvaged # terms # kept # anew # count other after bytes %
salvaged # terms # kept # anew # count other after unknown %
compared |
refused # at # left
refused # at # right
root $
confirmed # # #~ place #
text # |
refused # line #
!",
        t,
        line,
        bytes,
        floats,
        out,
    )
}

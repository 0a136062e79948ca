// The files of the worked rows.

/// The first example of the manual: three events, no call.
pub(crate) const TOTALS: &[u8] =
    b"# callgrind format\nevents: Cycles Instructions Flops\nfl=file.f\nfn=main\n15 90 14 2\n16 20 12\n";

/// The second one: three functions and their calls.
pub(crate) const CALLS: &[u8] = b"# callgrind format\n\
events: Instructions\n\
\n\
fl=file1.c\n\
fn=main\n\
16 20\n\
cfn=func1\n\
calls=1 50\n\
16 400\n\
cfi=file2.c\n\
cfn=func2\n\
calls=3 20\n\
16 400\n\
\n\
fn=func1\n\
51 100\n\
cfi=file2.c\n\
cfn=func2\n\
calls=2 20\n\
51 300\n\
\n\
fl=file2.c\n\
fn=func2\n\
20 700\n";

/// The same with its mappings first.
pub(crate) const COMPRESSED: &[u8] = b"# callgrind format\n\
events: Instructions\n\
\n\
fl=(1) file1.c\n\
fl=(2) file2.c\n\
fn=(1) main\n\
fn=(2) func1\n\
fn=(3) func2\n\
\n\
fl=(1)\n\
fn=(1)\n\
16 20\n\
cfn=(2)\n\
calls=1 50\n\
16 400\n\
cfi=(2)\n\
cfn=(3)\n\
calls=3 20\n\
16 400\n\
\n\
fn=(2)\n\
51 100\n\
cfi=(2)\n\
cfn=(3)\n\
calls=2 20\n\
51 300\n\
\n\
fl=(2)\n\
fn=(3)\n\
20 700\n";

/// Positions of two columns.
pub(crate) const ADDRESSES: &[u8] =
    b"positions: instr line\nevents: ticks\nfn=func\n0x80001234 90 1\n+3 * 5\n+1 +1 6\n";

/// A name that is given again by its identifier.
pub(crate) const EQUAL_NAMES: &[u8] =
    b"events: Ir\nob=(1) x.so\nfl=(1) a.c\nfn=(1) f\n1 2\nob=(1)\nfl=(1)\nfn=(1)\n+1 3\n";

/// Relative positions, before and behind a call.
pub(crate) const RELATIVE: &[u8] =
    b"events: Ir\nfl=a.c\nfn=main\n10 5\ncfn=(4) g\ncalls=2 30\n+2 7\n+1 1\nfn=(4)\n* 4\n";

/// A name that begins with a parenthesis, with and without an identifier.
pub(crate) const BELOW_MAIN: &[u8] =
    b"events: Ir\nfn=(below main)\n1 1\nfn=(7) (below main)\n1 2\nfn=(7)\n1 4\n";

/// A derived event.
pub(crate) const DERIVED: &[u8] =
    b"event: Est = Ir + 10 L1m + 100 * LLm : Estimate\nevents: Ir L1m LLm\nfn=f\n1 1000 20 3\n";

/// One function of four lines.
pub(crate) const FOUR_LINES: &[u8] = b"events: Ir\nfl=a.c\nfn=f\n1 50\n2 30\n3 15\n4 5\n";

/// Line 0, and a line behind the end of a source.
pub(crate) const LINES: &[u8] = b"events: Ir\nfl=a.c\nfn=f\n0 1\n1 2\n9 4\n";

/// The layout that Callgrind writes, with a total that it states.
pub(crate) const LAYOUT: &[u8] = b"# callgrind format\n\
version: 1\n\
creator: callgrind-3.22.0\n\
pid: 4242\n\
cmd:  ./a.out\n\
part: 1\n\
\n\
\n\
desc: I1 cache: \n\
desc: D1 cache: \n\
desc: LL cache: \n\
\n\
desc: Timerange: Basic block 0 - 11\n\
desc: Trigger: Program termination\n\
\n\
positions: line\n\
events: Ir\n\
summary: 12\n\
\n\
\n\
ob=(1) /tmp/a.out\n\
fl=(1) a.c\n\
fn=(1) main\n\
3 2\n\
+2 1\n\
cfn=(2) g\n\
calls=1 +4 \n\
* 6\n\
fi=(2) a.h\n\
-1 2\n\
fe=(1)\n\
+3 1\n\
\n\
fn=(2)\n\
9 6\n\
\n\
totals: 12\n";

/// Jumps between files.
pub(crate) const JUMPS: &[u8] =
    b"events: Ir\nfn=f\n5 1\njfi=(3) x.h\njfn=(4) k\njcnd=3/4 9\n5\nfi=(3)\n+1 2\n";

/// `CALLS` with carriage returns, and no end of its last line.
pub(crate) const CRLF_CALLS: &[u8] = b"# callgrind format\r\n\
events: Instructions\r\n\
\r\n\
fl=file1.c\r\n\
fn=main\r\n\
16 20\r\n\
cfn=func1\r\n\
calls=1 50\r\n\
16 400\r\n\
cfi=file2.c\r\n\
cfn=func2\r\n\
calls=3 20\r\n\
16 400\r\n\
\r\n\
fn=func1\r\n\
51 100\r\n\
cfi=file2.c\r\n\
cfn=func2\r\n\
calls=2 20\r\n\
51 300\r\n\
\r\n\
fl=file2.c\r\n\
fn=func2\r\n\
20 700";

/// A cost that is as great as one may be, and one of 1.
pub(crate) const GREATEST: &[u8] = b"events: Ir\n1 9223372036854775807\n";

pub(crate) const ONE: &[u8] = b"events: Ir\n1 1\n";

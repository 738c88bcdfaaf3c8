//! Bytes that are refused before what they ask for is looked at, and rooms.

// Two causes stand together, and the earlier step decides.
pub const PARTS: &str = "
short; bytes; 0; 4096; 0; z39;
short and no room; bytes; 0; 0; 0; z39;
no room before length; bytes; 0; 15; 0; d41 d26 q1 z24;
length; bytes; 0; 16; 0; d41 d26 q1 z24; d16 xeaffffff q1
length before extension; bytes; 0; 16; 0; d39 d17 q1 z20 x01 z3; d16 xeaffffff q1
extension before opcode; bytes; 0; 16; 0; d40 d17 q3 z20 x01 z3; d16 xeaffffff q3
opcode before session; bytes; 0; 16; 0; d40 d17 q2 z24; d16 xdaffffff q2
opcode 0; bytes; 0; 16; 0; d40 d0 q2 z24; d16 xdaffffff q2
body before session; bytes; 0; 16; 0; d40 d15 q2 z24; d16 xeaffffff q2
session before room; bytes; 0; 16; 0; d40 d38 q2 z24; d16 xfbffffff q2
a forget of no length; bytes; 0; 4096; 0; d0 d2 q1 z24;
a forget without a body; bytes; 0; 4096; 0; d40 d42 q1 z24;
";

// The room is judged before the node, the body before the handle.
pub const STEPS: &str = "
session before room; 3; 1; 119; 5; d0 z4 q0;
room of the first; 26; 0; 79; 22; d7 d31 z8;
room before version; 26; 0; 79; 22; d7 d30 z8;
a session; 26; 0; 80; 0; d7 d31 z8; d7 d31 z8 x10000c00 d1048576 d1 z36
room before node; 3; 20; 119; 22; d0 z4 q0;
node; 3; 20; 120; 2; d0 z4 q0;
room of a read; 15; 2; 115; 22; q0 q0 d100 z20;
room of a new file; 35; 1; 159; 22; d0 z12 x6200;
room of a size; 4; 2; 119; 22; d8 z4 q0 q1 z64;
nothing was made; 1; 1; 144; 2; x62 z1;
a name without an end; 1; 1; 144; 22; x62;
a name with a slash; 1; 1; 144; 22; x622f63 z1;
an empty name; 1; 1; 144; 22; z1;
one interval of two; 49; 0; 16; 22; x02 z19;
no interval; 49; 0; 16; 0; z4;
a longer body; 18; 2; 16; 22; z25;
no handle; 18; 2; 16; 9; q1 z16;
";

// SETUPMAPPING of 2 MiB of node 2 from 2 MiB on, with no handle, for reading and writing: past the window's end
// by a page, and at 4 MiB of the window.
pub const PAST: &str = "
past the window; bytes; 0; 16; 0; d80 d48 q7 q2 z16 xffffffffffffffff q2097152 q2097152 q3 q6295552; d16 xeaffffff q7
";

/// The same chain at 4 MiB of the window, with just the room and with more.
pub const WHOLE: &str = "
whole; bytes; 0; 16; 0; d80 d48 q7 q2 z16 xffffffffffffffff q2097152 q2097152 q3 q4194304; d16 z4 q7
more room; bytes; 0; 4096; 0; d80 d48 q7 q2 z16 xffffffffffffffff q2097152 q2097152 q3 q4194304; d16 z4 q7
";

/// And once more, for pieces of one byte.
pub const PIECES: &str = "
pieces; bytes; 0; 16; 0; d80 d48 q7 q2 z16 xffffffffffffffff q2097152 q2097152 q3 q4194304; d16 z4 q7
";

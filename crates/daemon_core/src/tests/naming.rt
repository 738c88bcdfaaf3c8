//! Names, lookups, handles and the files that were made.

// A file is known as long as it has a name, a lookup or a handle.
pub const LOOKUPS: &str = "
a lookup; 1; 1; 4096; 0; x61 z1; q2 z32 q2 q0 q0 z36 d33188 d1 z12 d4096 z4
another lookup; 1; 1; 4096; 0; x61 z1; q2 z32 q2 q0 q0 z36 d33188 d1 z12 d4096 z4
bytes; 16; 2; 4096; 0; q2 q0 d2 z20 x0708; x02 z7
no name; 10; 1; 4096; 0; x61 z1;
nowhere; 1; 1; 4096; 2; x61 z1;
the handle works; 15; 2; 4096; 0; q2 q0 d9 z20; x0708
no link; 3; 2; 4096; 0; d1 z4 q2; z16 q2 q2 q1 z36 d33188 d0 z12 d4096 z4
the handle writes; 16; 2; 4096; 0; q2 q2 d2 z20 x090a; x02 z7
a new file of this name; 35; 1; 4096; 0; d128 z12 x6100; q4 z32 q4 q0 q0 z36 d33188 d1 z12 d4096 z4 q4 z8
closed; 18; 2; 4096; 0; q2 z16;
known by its lookups; 3; 2; 4096; 0; d0 z4 q0; z16 q2 q4 q1 z36 d33188 d0 z12 d4096 z4
one lookup; 2; 2; 0; 0; x01 z7;
known by the other; 3; 2; 4096; 0; d0 z4 q0; z16 q2 q4 q1 z36 d33188 d0 z12 d4096 z4
more than there are; 2; 2; 0; 0; xffffffffffffffff;
forgotten; 3; 2; 4096; 2; d0 z4 q0;
not opened again; 14; 2; 4096; 2; z8;
the directory; 2; 1; 0; 0; xffffffffffffffff;
the directory stays; 27; 1; 32; 0; z8; q5 z8
an unknown node; 2; 20; 0; 0; x01 z7;
more lookups than there are; 2; 3; 0; 0; xffffffffffffffff;
known by its name; 3; 3; 4096; 0; d0 z4 q0; z16 q3 q0 q0 z36 d33188 d1 z12 d4096 z4
";

// A session ends and another begins: names, bytes and the numbers of handles go on.
pub const TWO_SESSIONS: &str = "
bytes; 16; 2; 4096; 0; q2 q0 d2 z20 x0708; x02 z7
a mapping; 48; 2; 4096; 0; q2 q0 q4096 q1 q0;
b has no name; 10; 1; 4096; 0; x62 z1;
a second INIT; 26; 0; 4096; 0; d7 d31 z8; d7 d31 z8 x10000c00 d1048576 d1 z36
another version; 26; 0; 4096; 71; d7 d30 z8;
still a session; 3; 2; 4096; 0; d1 z4 q2; z16 q2 q2 q1 z36 d33188 d1 z12 d4096 z4
the end; 38; 0; 4096; 0; ;
no session; 3; 2; 4096; 5; d0 z4 q0;
again; 26; 0; 4096; 0; d7 d31 z8; d7 d31 z8 x10000c00 d1048576 d1 z36
no old handle; 3; 2; 4096; 9; d1 z4 q2;
bytes and name stay; 3; 2; 4096; 0; d0 z4 q0; z16 q2 q2 q1 z36 d33188 d1 z12 d4096 z4
without name, lookup and handle; 3; 3; 4096; 2; d0 z4 q0;
the next handle; 14; 2; 4096; 0; z8; q4 z8
its bytes; 15; 2; 4096; 0; q4 q0 d2 z20; x0708
";

// A mapping stays when its file is forgotten, and no new one is made.
pub const FORGOTTEN: &str = "
a mapping; 48; 3; 4096; 0; q1 q4096 q4096 q2 q8192;
no name; 10; 1; 4096; 0; x62 z1;
closed; 18; 3; 4096; 0; q1 z16;
no lookup; 2; 3; 0; 0; x01 z7;
no node; 48; 3; 4096; 2; q18446744073709551615 q4096 q4096 q2 q8192;
";

/// After [`BEGIN`](crate::tests::sessions::BEGIN) 1,021 handles are left.
pub const FILL: &str = "
a handle; 14; 2; 32; 1021; z8;
";

// 1,024 handles are open at most, and no number is used twice.
pub const HANDLES: &str = "
open: node before handles; 14; 20; 4096; 2; z8;
open: file before handles; 14; 1; 4096; 21; z8;
open; 14; 2; 4096; 24; z8;
opendir: node before handles; 27; 20; 4096; 2; z8;
opendir: directory before handles; 27; 2; 4096; 20; z8;
opendir; 27; 1; 4096; 24; z8;
create: name before handles; 35; 1; 4096; 22; d0 z12 x2e00;
create: file before handles; 35; 1; 4096; 17; d128 z12 x6100;
create: handles for a file that is there; 35; 1; 4096; 24; d0 z12 x6100;
create: handles for a new file; 35; 1; 4096; 24; d0 z12 x6300;
nothing was made; 1; 1; 4096; 2; x63 z1;
one is closed; 18; 2; 4096; 0; q2 z16;
the next number; 14; 2; 4096; 0; z8; q1025 z8
no more; 14; 2; 4096; 24; z8;
";

// Files a, b, c and aaaaaaaaa in the order that they were made, and a, aaaaaaaaa, b, c in byte order. An entry
// of one character has 24 + 1 bytes and 7 to fill up, that of nine characters 24 + 9 and 7.
pub const ENTRIES: &str = "
file c; 35; 1; 160; 0; d0 z12 x6300; q4 z32 q4 q0 q0 z36 d33188 d1 z12 d4096 z4 q4 z8
a long name; 35; 1; 160; 0; z16 x616161616161616161 z1; q5 z32 q5 q0 q0 z36 d33188 d1 z12 d4096 z4 q5 z8
no size; 28; 1; 4096; 0; q3 q0 d0 z20;
none fits; 28; 1; 4096; 0; q3 q0 d31 z20;
one fits; 28; 1; 4096; 0; q3 q0 d32 z20; q2 q1 d1 d8 x61 z7
all but its filler fit; 28; 1; 4096; 0; q3 q0 d71 z20; q2 q1 d1 d8 x61 z7
two fit; 28; 1; 4096; 0; q3 q0 d72 z20; q2 q1 d1 d8 x61 z7 q5 q2 d9 d8 x616161616161616161 z7
all but one byte; 28; 1; 4096; 0; q3 q0 d135 z20; q2 q1 d1 d8 x61 z7 q5 q2 d9 d8 x616161616161616161 z7 q3 q3 d1 d8 x62 z7
all; 28; 1; 4096; 0; q3 q0 d136 z20; q2 q1 d1 d8 x61 z7 q5 q2 d9 d8 x616161616161616161 z7 q3 q3 d1 d8 x62 z7 q4 q4 d1 d8 x63 z7
more size; 28; 1; 4096; 0; q3 q0 d4000 z20; q2 q1 d1 d8 x61 z7 q5 q2 d9 d8 x616161616161616161 z7 q3 q3 d1 d8 x62 z7 q4 q4 d1 d8 x63 z7
from the second on; 28; 1; 4096; 0; q3 q1 d4000 z20; q5 q2 d9 d8 x616161616161616161 z7 q3 q3 d1 d8 x62 z7 q4 q4 d1 d8 x63 z7
the second alone; 28; 1; 4096; 0; q3 q1 d40 z20; q5 q2 d9 d8 x616161616161616161 z7
the second doesn't fit; 28; 1; 4096; 0; q3 q1 d39 z20;
from the last on; 28; 1; 4096; 0; q3 q3 d4000 z20; q4 q4 d1 d8 x63 z7
after the last; 28; 1; 4096; 0; q3 q4 d4000 z20;
after all; 28; 1; 4096; 0; q3 q18446744073709551615 d4000 z20;
b has no name; 10; 1; 16; 0; x62 z1;
numbers close up; 28; 1; 4096; 0; q3 q2 d4000 z20; q4 q3 d1 d8 x63 z7
its node stays; 1; 1; 144; 0; x63 z1; q4 z32 q4 q0 q0 z36 d33188 d1 z12 d4096 z4
";

// 16 files are made at most, whether or not they still have a name.
pub const MADE_FILES: &str = "
one more; 35; 1; 160; 0; d128 z12 x6300; q4 z32 q4 q0 q0 z36 d33188 d1 z12 d4096 z4 q4 z8
one more; 35; 1; 160; 0; d128 z12 x6400; q5 z32 q5 q0 q0 z36 d33188 d1 z12 d4096 z4 q5 z8
one more; 35; 1; 160; 0; d128 z12 x6500; q6 z32 q6 q0 q0 z36 d33188 d1 z12 d4096 z4 q6 z8
one more; 35; 1; 160; 0; d128 z12 x6600; q7 z32 q7 q0 q0 z36 d33188 d1 z12 d4096 z4 q7 z8
one more; 35; 1; 160; 0; d128 z12 x6700; q8 z32 q8 q0 q0 z36 d33188 d1 z12 d4096 z4 q8 z8
one more; 35; 1; 160; 0; d128 z12 x6800; q9 z32 q9 q0 q0 z36 d33188 d1 z12 d4096 z4 q9 z8
one more; 35; 1; 160; 0; d128 z12 x6900; q10 z32 q10 q0 q0 z36 d33188 d1 z12 d4096 z4 q10 z8
one more; 35; 1; 160; 0; d128 z12 x6a00; q11 z32 q11 q0 q0 z36 d33188 d1 z12 d4096 z4 q11 z8
one more; 35; 1; 160; 0; d128 z12 x6b00; q12 z32 q12 q0 q0 z36 d33188 d1 z12 d4096 z4 q12 z8
one more; 35; 1; 160; 0; d128 z12 x6c00; q13 z32 q13 q0 q0 z36 d33188 d1 z12 d4096 z4 q13 z8
one more; 35; 1; 160; 0; d128 z12 x6d00; q14 z32 q14 q0 q0 z36 d33188 d1 z12 d4096 z4 q14 z8
one more; 35; 1; 160; 0; d128 z12 x6e00; q15 z32 q15 q0 q0 z36 d33188 d1 z12 d4096 z4 q15 z8
one more; 35; 1; 160; 0; d128 z12 x6f00; q16 z32 q16 q0 q0 z36 d33188 d1 z12 d4096 z4 q16 z8
one more; 35; 1; 160; 0; d128 z12 x7000; q17 z32 q17 q0 q0 z36 d33188 d1 z12 d4096 z4 q17 z8
create: directory before files; 35; 2; 4096; 20; d0 z12 x7100;
create: name before files; 35; 1; 4096; 22; d0 z12 x2e00;
create: no more files; 35; 1; 4096; 28; d0 z12 x7100;
create: nor exclusively; 35; 1; 4096; 28; d128 z12 x7100;
create: a file that is there; 35; 1; 4096; 0; d0 z12 x7000; q17 z32 q17 q0 q0 z36 d33188 d1 z12 d4096 z4 q18 z8
create: exclusively; 35; 1; 4096; 17; d128 z12 x7000;
no name; 10; 1; 4096; 0; x63 z1;
no number is used again; 35; 1; 4096; 28; d0 z12 x7100;
nor for the same name; 35; 1; 4096; 28; d0 z12 x6300;
";

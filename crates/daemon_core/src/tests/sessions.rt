//! Whole sessions.

/// Begins a session, makes file "b" of node 3 with handle 1, and opens file "a" of node 2 as handle 2
/// and the directory as handle 3.
pub const BEGIN: &str = "
a session; 26; 0; 80; 0; d7 d31 z8; d7 d31 z8 x10000c00 d1048576 d1 z36
file b; 35; 1; 160; 0; d128 z12 x6200; q3 z32 q3 q0 q0 z36 d33188 d1 z12 d4096 z4 q1 z8
file a; 14; 2; 32; 0; z8; q2 z8
the directory; 27; 1; 32; 0; z8; q3 z8
";

// One session, from before INIT to after DESTROY.
pub const SESSION: &str = "
before a session; 3; 1; 120; 5; z16;
a version too old; 26; 0; 80; 71; x07 z3 x1e z11;
a session; 26; 0; 80; 0; x07 z3 x1f z5 x02 z4 x04; x07 z3 x1f z5 x02 z4 x0410000c z3 x100001 z5 x0c z33
a mapping; 48; 2; 16; 0; xffffffffffffffff000020 z7 x20 z5 x03 z9 x40 z5;
a mapping past the window; 48; 2; 16; 22; xffffffffffffffff000020 z7 x20 z5 x03 z8 x1060 z5;
no operation; 17; 0; 16; 38; ;
one interval of two; 49; 0; 16; 22; x02 z19;
no interval; 49; 0; 16; 0; z4;
a room one too small; 1; 1; 143; 22; x61 z1;
a name; 1; 1; 144; 0; x61 z1; x02 z39 x02 z59 xa481000001 z16 x10 z6
a name that is not there; 1; 1; 144; 2; x62 z1;
a handle of a file; 14; 2; 32; 0; z8; x01 z15
a write; 16; 2; 24; 0; x01 z7 x05 z7 x03 z23 x616263; x03 z7
a read; 15; 2; 25; 0; x01 z7 x04 z7 x09 z23; x00616263
a read without a handle; 15; 2; 25; 9; x09 z7 x04 z7 x09 z23;
attributes; 3; 2; 120; 0; z16; z16 x02 z7 x08 z7 x01 z43 xa481000001 z16 x10 z6
the directory; 3; 1; 120; 0; z16; z16 x01 z59 xed41000002 z16 x10 z6
a size; 4; 2; 120; 0; x08 z15 x02 z71; z16 x02 z7 x02 z7 x01 z43 xa481000001 z16 x10 z6
a size of the directory; 4; 1; 120; 21; x08 z15 x02 z71;
a new file; 35; 1; 160; 0; z16 x62 z1; x03 z39 x03 z59 xa481000001 z16 x10 z6 x02 z15
a file that is there; 35; 1; 160; 17; x80 z15 x62 z1;
a handle of the directory; 27; 1; 32; 0; z8; x03 z15
all names; 28; 1; 80; 0; x03 z15 x40 z23; x02 z7 x01 z7 x01 z3 x08 z3 x61 z7 x03 z7 x02 z7 x01 z3 x08 z3 x62 z7
the second name; 28; 1; 79; 0; x03 z7 x01 z7 x3f z23; x03 z7 x02 z7 x01 z3 x08 z3 x62 z7
a name taken away; 10; 1; 16; 0; x62 z1;
a handle closed; 18; 3; 16; 0; x02 z23;
a file without a name; 3; 3; 120; 0; z16; z16 x03 z59 xa481 z19 x10 z6
a file with a lookup and a name; 3; 2; 120; 0; z16; z16 x02 z7 x02 z7 x01 z43 xa481000001 z16 x10 z6
nothing to store; 20; 2; 16; 0; x01 z15;
nothing to flush; 25; 2; 16; 0; x01 z23;
room in a file; 43; 2; 16; 95; x01 z31;
the directory closed; 29; 1; 16; 0; x03 z23;
an interval; 49; 0; 16; 0; x01 z5 x40 z7 x20 z5;
lookups of a file; 2; 3; 0; 0; x01 z7;
lookups of two; 42; 0; 0; 0; x02 z7 x02 z7 x01 z7 x09 z7 x01 z7;
a file that is forgotten; 3; 3; 120; 2; z16;
a file with a name; 3; 2; 120; 0; z16; z16 x02 z7 x02 z7 x01 z43 xa481000001 z16 x10 z6
the end; 38; 0; 16; 0; ;
after the end; 27; 1; 32; 5; z8;
";

//! Chains that are served while the daemon stays, and whose turn they need.

// What is carried out while the daemon stays as it is, before a session and in one.
pub const EARLY: &str = "
no session; 15; 2; 25; 5; q2 q0 d9 z20;
no session is begun; 26; 0; 80; 38; d7 d31 z8;
refused before the session; 14; 2; 32; 38; z8;
";

pub const CARRIED_OUT: &str = "
write; 16; 2; 24; 0; q2 q0 d2 z20 x0708; x02 z7
read; 15; 2; 25; 0; q2 q1 d9 z20; x08
getattr; 3; 2; 120; 0; d1 z4 q2; z16 q2 q2 q1 z36 d33188 d1 z12 d4096 z4
setattr; 4; 2; 120; 0; d72 z4 q2 q1 z64; z16 q2 q1 q1 z36 d33188 d1 z12 d4096 z4
fsync; 20; 2; 16; 0; x02 z15;
flush; 25; 2; 16; 0; q2 z16;
setupmapping; 48; 2; 16; 0; q18446744073709551615 q0 q8192 q3 q0;
removemapping; 49; 0; 16; 0; x01 z12 x10 z6;
no node; 15; 20; 25; 2; q2 q0 d9 z20;
no handle; 15; 2; 25; 9; q1 q0 d9 z20;
no room; 15; 2; 24; 22; q2 q0 d9 z20;
a body too short; 16; 2; 24; 22; z39;
";

// What isn't.
pub const REFUSED: &str = "
init; 26; 0; 80; 38; d7 d31 z8;
lookup; 1; 1; 144; 38; x61 z1;
unlink; 10; 1; 16; 38; x61 z1;
open; 14; 2; 32; 38; z8;
open, before its room; 14; 2; 16; 38; z8;
open, after its body; 14; 2; 32; 22; z7;
release; 18; 2; 16; 38; q2 z16;
opendir; 27; 1; 32; 38; z8;
readdir; 28; 1; 25; 38; q3 q0 d9 z20;
releasedir; 29; 1; 16; 38; q3 z16;
create; 35; 1; 160; 38; d0 z12 x6300;
create, after its body; 35; 1; 160; 22; d0 z12 x2f00;
destroy; 38; 0; 16; 38; ;
fallocate; 43; 2; 16; 38; q2 z24;
no operation; 17; 0; 16; 38; ;
forget; 2; 3; 0; 0; x01 z7;
batch_forget; 42; 0; 0; 0; z8;
";

// In place of the error stands the file whose turn the request needs, counted from 1, or 0.
pub const TURNS: &str = "
getattr; 3; 2; 0; 1; d0 z4 q0;
getattr, whatever its handle; 3; 3; 0; 2; d1 z4 q99;
setattr; 4; 2; 0; 1; d0 z4 q0 q0 z64;
read; 15; 3; 0; 2; q1 q0 d9 z20;
read, whatever its size; 15; 3; 0; 2; q1 q0 d2000000 z20;
write; 16; 2; 0; 1; q2 q0 d2 z20 x0708;
fsync; 20; 2; 0; 0; d0 z4 q2;
flush; 25; 2; 0; 0; q2 z16;
open; 14; 2; 0; 0; z8;
setupmapping; 48; 2; 0; 0; q18446744073709551615 q0 q8192 q3 q0;
fallocate; 43; 2; 0; 0; q2 z24;
the directory; 3; 1; 0; 0; d0 z4 q0;
no node; 3; 0; 0; 0; d0 z4 q0;
a node of no file; 3; 4; 0; 0; d0 z4 q0;
a node past all; 3; 18446744073709551615; 0; 0; d0 z4 q0;
a getattr too short; 3; 2; 0; 0; z15;
a setattr too long; 4; 2; 0; 0; z89;
a read too short; 15; 2; 0; 0; z39;
a write too short; 16; 2; 0; 0; z39;
a write of more bytes than it says; 16; 2; 0; 0; z41;
no operation; 17; 2; 0; 0; ;
bytes of a read; bytes; 0; 0; 1; d56 d3 q7 q2 z32;
bytes too few; bytes; 0; 0; 0; z39;
bytes of another length; bytes; 0; 0; 0; d57 d3 q7 q2 z32;
bytes with an extension; bytes; 0; 0; 0; d56 d3 q7 q2 z12 x0100 z18;
";

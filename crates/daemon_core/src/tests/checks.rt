//! Chains for which two causes of an error stand together: the earlier check decides.

// Two causes stand together, and the earlier check decides. Node 20 is no file's, handle 99 isn't open, and the
// handle of all ones stands for none.
pub const NAMES_AND_HANDLES: &str = "
init: an older major; 26; 0; 2000000; 71; d6 d31 z8;
init: a later major; 26; 0; 2000000; 71; d8 d31 z8;
init: an older minor; 26; 0; 2000000; 71; d7 d30 z8;
lookup: node before name; 1; 20; 2000000; 2; x63 z1;
lookup: directory before name; 1; 2; 2000000; 20; x63 z1;
lookup: name; 1; 1; 2000000; 2; x63 z1;
unlink: node before name; 10; 20; 2000000; 2; x63 z1;
unlink: directory before name; 10; 2; 2000000; 20; x63 z1;
unlink: name; 10; 1; 2000000; 2; x63 z1;
open: node; 14; 20; 2000000; 2; z8;
open: file; 14; 1; 2000000; 21; z8;
release: node before handle; 18; 20; 2000000; 2; q99 z16;
release: file before handle; 18; 1; 2000000; 21; q99 z16;
release: handle of another; 18; 2; 2000000; 9; q1 z16;
release: handle of the directory; 18; 2; 2000000; 9; q3 z16;
fsync: node before handle; 20; 20; 2000000; 2; d0 z4 q99;
fsync: file before handle; 20; 1; 2000000; 21; d0 z4 q99;
fsync: handle; 20; 2; 2000000; 9; x01 z15;
flush: node before handle; 25; 20; 2000000; 2; q99 z16;
flush: file before handle; 25; 1; 2000000; 21; q99 z16;
flush: handle; 25; 2; 2000000; 9; q1 z16;
opendir: node; 27; 20; 2000000; 2; z8;
opendir: directory; 27; 2; 2000000; 20; z8;
readdir: node before handle; 28; 20; 2000000; 2; q99 q0 d1048577 z20;
readdir: directory before handle; 28; 2; 2000000; 20; q2 q0 d1048577 z20;
readdir: handle before size; 28; 1; 2000000; 9; q2 q0 d1048577 z20;
readdir: size; 28; 1; 2000000; 22; q3 q0 d1048577 z20;
releasedir: node before handle; 29; 20; 2000000; 2; q99 z16;
releasedir: directory before handle; 29; 2; 2000000; 20; q99 z16;
releasedir: handle of a file; 29; 1; 2000000; 9; q2 z16;
create: node before name; 35; 20; 2000000; 2; d0 z12 x2e00;
create: directory before name; 35; 2; 2000000; 20; d0 z12 x2e00;
create: name; 35; 1; 2000000; 22; d128 z12 x2e00;
create: two dots; 35; 1; 2000000; 22; z16 x2e2e z1;
create: a name that is there; 35; 1; 2000000; 17; d128 z12 x6100;
fallocate: node before handle; 43; 20; 2000000; 2; q99 z24;
fallocate: file before handle; 43; 1; 2000000; 21; q99 z24;
fallocate: handle before all; 43; 2; 2000000; 9; q1 z24;
fallocate: always; 43; 2; 2000000; 95; q2 z24;
";

pub const SIZES_BYTES_AND_MAPPINGS: &str = "
getattr: node before handle; 3; 20; 2000000; 2; d1 z4 q99;
getattr: handle of another; 3; 2; 2000000; 9; d1 z4 q1;
getattr: handle of a file; 3; 1; 2000000; 9; d1 z4 q2;
setattr: node before handle; 4; 20; 2000000; 2; d72 z4 q99 q67108865 z64;
setattr: handle before file; 4; 1; 2000000; 9; d72 z4 q99 q67108865 z64;
setattr: file before size; 4; 1; 2000000; 21; d72 z4 q3 q67108865 z64;
setattr: size; 4; 2; 2000000; 27; d72 z4 q2 q67108865 z64;
read: node before handle; 15; 20; 2000000; 2; q99 q0 d1048577 z20;
read: file before handle; 15; 1; 2000000; 21; q99 q0 d1048577 z20;
read: handle before size; 15; 2; 2000000; 9; q1 q0 d1048577 z20;
read: size; 15; 2; 2000000; 22; q2 q0 d1048577 z20;
write: node before handle; 16; 20; 2000000; 2; q99 q18446744073709551615 d2 z20 x0102;
write: file before handle; 16; 1; 2000000; 21; q99 q18446744073709551615 d2 z20 x0102;
write: handle before end; 16; 2; 2000000; 9; q1 q18446744073709551615 d2 z20 x0102;
write: end; 16; 2; 2000000; 27; q2 q18446744073709551615 d2 z20 x0102;
write: end by one; 16; 2; 2000000; 27; q2 q67108863 d2 z20 x0102;
write: no bytes at the end; 16; 2; 24; 0; q2 q67108864 z24; z8
setup: node before handle; 48; 20; 2000000; 2; q99 q18446744073709551615 q18446744073709551615 q0 q18446744073709551615;
setup: file before handle; 48; 1; 2000000; 21; q99 q18446744073709551615 q18446744073709551615 q0 q18446744073709551615;
setup: handle before end; 48; 2; 2000000; 9; q1 q18446744073709551615 q18446744073709551615 q0 q18446744073709551615;
setup: end before flags; 48; 2; 2000000; 27; q2 q67104768 q8192 q0 q0;
setup: no flags; 48; 2; 2000000; 22; q18446744073709551615 q0 q4096 q0 q0;
setup: other flags; 48; 2; 2000000; 22; q18446744073709551615 q0 q4096 q4 q0;
setup: offset in the file; 48; 2; 2000000; 22; q18446744073709551615 q1 q4096 q3 q0;
setup: length; 48; 2; 2000000; 22; q18446744073709551615 q0 q4095 q3 q0;
setup: no length; 48; 2; 2000000; 22; q18446744073709551615 q0 q0 q3 q0;
setup: offset in the window; 48; 2; 2000000; 22; q18446744073709551615 q0 q4096 q3 q1;
setup: past the window; 48; 2; 2000000; 22; q18446744073709551615 q0 q8192 q3 q8384512;
setup: no sum wraps; 48; 2; 2000000; 22; q18446744073709551615 q0 q4096 q3 q18446744073709547520;
setup: the last page of file and window; 48; 2; 16; 0; q18446744073709551615 q67104768 q4096 q3 q8384512;
";

pub const INTERVALS: &str = "
a page; 48; 2; 16; 0; q18446744073709551615 q0 q4096 q1 q4096;
an offset; 49; 20; 2000000; 22; d2 q4096 q4096 q1 q4096;
a length; 49; 20; 2000000; 22; d2 q4096 q4096 q0 q4095;
no length; 49; 20; 2000000; 22; d2 q4096 q4096 q0 q0;
an end; 49; 20; 2000000; 22; d2 q4096 q4096 q8384512 q8192;
no sum wraps; 49; 20; 2000000; 22; d2 q4096 q4096 q4096 q18446744073709547520;
";

pub const ANY_NODE: &str = "
any node; 49; 20; 16; 0; d2 q4096 q4096 q4096 q4096;
";

/// Scripts with their transcripts, one a line: a name, the script and the transcript, with `/` for the end of a line.
pub const RUNS: &str = "\
# NOTHING: no call.
NOTHING|ranges 0/file a 0/|transcript 1/ranges 0/file a 0 00/end/
# TWO: a write by request, a read through the window, and another guest's truncation.
TWO|ranges 2/file a 0/guest/write a 0 61/read a 0 1/guest/truncate a 0/|transcript 1/ranges 2/file a 0 00/entry 0 0 req 0/entry 0 1 via 0 1/entry 1 0 req/log place 0 in 0 r/guest 0/0 done 0 wrote 1/1 done 1 bytes 61/guest 1/0 done 2 size 0/end/
# HOLDS: a hold, a store in it, one past its end, a truncation under it, its release, and a load behind that.
HOLDS|ranges 2/file a 5/guest/hold a 0 w/store 0 3 6162/store 0 4 6162/truncate a 0/release 0/load 0 0 1/|transcript 1/ranges 2/file a 5 00/entry 0 1 via 0 1/log place 0 in 0 w/guest 0/0 held 5 via 0 1/1 done 0 wrote 2/2 past 5/3 leased 1/4 released/5 nohold/end/
# BUSY: both ranges are held, so that a third chunk finds none.
BUSY|ranges 2/file a 6291456/guest/hold a 0 r/hold a 1 r/read a 4194304 1/|transcript 1/ranges 2/file a 6291456 00/log place 0 in 0 r/log place 1 in 1 r/guest 0/0 held 2097152 via 0 1/1 held 4194304 via 1 2/2 busy pp/end/
# RECLAIM: two ranges for three chunks, the first of which is read again.
RECLAIM|ranges 2/file a 6291456/guest/read a 0 1/read a 2097152 1/read a 4194304 1/read a 0 1/|transcript 1/ranges 2/file a 6291456 00/entry 0 0 via 0 1/entry 0 1 via 1 2/entry 0 2 via 3 4/entry 0 3 via 5 6/log place 0 in 0 r/log place 1 in 1 r/log remove 0/log place 2 in 0 r/log remove 1/log place 0 in 1 r/guest 0/0 done 0 bytes 00/1 done 1 bytes 00/2 done 2 bytes 00/3 done 3 bytes 00/end/
# SEAM: a read over the seam of two chunks, and an upgrade of the first one.
SEAM|ranges 2/file a 4194304/guest/read a 2097151 2/write a 0 ff/|transcript 1/ranges 2/file a 4194304 00/entry 0 0 via 0 1 1 2/entry 0 1 via 0 3/log place 0 in 0 r/log place 1 in 1 r/log upgrade 0/guest 0/0 done 0 bytes 0000/1 done 1 wrote 1/end/
";

/// What the audit prints, one case a line: the name of a run; two pieces of its transcript that are
/// replaced one after another where they stand first, each as `OLD>NEW`, or nothing; and the line that is printed.
pub const CASES: &str = "\
# Legal ones.
NOTHING|||legal
TWO|||legal
HOLDS|||legal
BUSY|||legal
RECLAIM|||legal
SEAM|||legal
# The truncation comes before the read.
TWO|entry 0 1 via 0 1/entry 1 0 req>entry 1 0 req/entry 0 1 via 0 1|1 done 1 bytes 61/guest 1/0 done 2>1 done 2 bytes -/guest 1/0 done 1|legal
# The ranges and the files are the script's.
TWO|ranges 2>ranges 3||rule 1 line 2
TWO|file a 0 00>file b 0 00||rule 1 line 3
TWO|file a 0 00>file a 1 00||rule 1 line 3
TWO|file a 0 00>file a 0 01||rule 1 line 3
TWO|guest 0>file b 0 00/guest 0||rule 1 line 8
NOTHING|file a 0 00/>||rule 1 line 3
# The guests are the script's, each with one line for each call.
TWO|guest 0>guest 1||rule 2 line 8
TWO|1 done 1>0 done 1||rule 2 line 10
TWO|1 done 1 bytes 61/>||rule 2 line 10
TWO|guest 1/>2 done 2 size 0/guest 1/||rule 2 line 11
TWO|0 done 2 size 0/>||rule 2 line 12
TWO|guest 1/0 done 2 size 0/>||rule 2 line 11
TWO|end>guest 2/end||rule 2 line 13
# Each line fits its call.
TWO|0 done 0 wrote 1>0 done 0 bytes 61||rule 3 line 9
TWO|0 done 0 wrote 1>0 leased 1||rule 3 line 9
TWO|0 done 2 size 0>0 busy pp||rule 3 line 12
TWO|0 done 2 size 0>0 done 2 wrote 0||rule 3 line 12
HOLDS|0 held 5 via 0 1>0 nohold||rule 3 line 7
HOLDS|5 nohold>5 busy pp||rule 3 line 12
# Entries and done lines name each other.
TWO|0 done 0>0 done 1|1 done 1>1 done 0|rule 4 line 4
TWO|0 done 2>0 done 3||rule 4 line 6
TWO|entry 1 0 req/>||rule 4 line 11
TWO|entry 1 0 req>entry 1 1 req||rule 4 line 6
BUSY|log place 0>entry 0 2 via 0 1/log place 0||rule 4 line 4
# A guest's places rise.
TWO|entry 0 0 req 0/entry 0 1 via 0 1>entry 0 1 via 0 1/entry 0 0 req 0|0 done 0 wrote 1/1 done 1 bytes 61>0 done 1 wrote 1/1 done 0 bytes -|rule 5 line 10
# Each answer is the plain file's.
TWO|wrote 1>wrote 2||rule 6 line 9
TWO|bytes 61>bytes 62||rule 6 line 10
TWO|bytes 61>bytes -||rule 6 line 10
TWO|size 0>size 1||rule 6 line 12
# Each entry came a way that there was.
TWO|req 0>req||rule 7 line 4
TWO|req 0>req 1||rule 7 line 4
TWO|req 0>via 0 1||rule 7 line 4
TWO|via 0 1>via 0 2||rule 7 line 5
TWO|via 0 1>req||rule 7 line 5
TWO|entry 1 0 req>entry 1 0 req 0||rule 7 line 6
RECLAIM|via 5 6>via 0 6||rule 7 line 7
RECLAIM|via 5 6>via 3 6||rule 7 line 7
SEAM|via 0 1 1 2>via 1 2 0 1||rule 7 line 4
SEAM|via 0 1 1 2>via 0 1||rule 7 line 4
SEAM|via 0 3>via 0 2||rule 7 line 5
NOTHING|end>log place 0 in 0 r/end||rule 9 line 4
# Each call that wasn't carried out was refused rightly.
BUSY|busy pp>busy p||rule 8 line 9
HOLDS|held 5>held 4||rule 8 line 7
HOLDS|past 5>past 6||rule 8 line 9
HOLDS|past 5>nohold||rule 8 line 9
HOLDS|leased 1>leased 0||rule 8 line 10
HOLDS|5 nohold>5 past 5||rule 8 line 12
HOLDS|in 0 w/>in 0 r/||rule 7 line 4
# Each log is sound.
TWO|in 0 r>in 2 r||rule 9 line 7
RECLAIM|log remove 0>log remove 1||rule 9 line 11
RECLAIM|guest 0>log upgrade 0/log upgrade 0/guest 0||rule 9 line 15
# The earlier of two broken rules is told, though a later line breaks it.
TWO|bytes 61>bytes 62|entry 1 0 req>entry 1 0 req 0|rule 6 line 10
TWO|ranges 2>ranges 3|transcript 1>transcript 2|transcript line 1
# No transcripts.
TWO|transcript 1>transcript 2||transcript line 1
TWO|end/>end||transcript line 13
TWO|end/>||transcript line 13
TWO|end/>end/---/||transcript line 14
";

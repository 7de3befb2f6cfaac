//! The titles of peers that may call `serve`: those of a file and those of options, in order.
use crate::asked::asks;
use std::test::Fail;

static ORDERED: &str = "dcmbox serve --port 104 --out files --callers scanners.txt --caller OPTION
listed | SCANNER1<LF>SCANNER2<LF>
callers | OPTION SCANNER1 SCANNER2
listed | SCANNER1<LF>SCANNER2
callers | OPTION SCANNER1 SCANNER2
listed | SCANNER1<CR><LF>SCANNER2<CR><LF>
callers | OPTION SCANNER1 SCANNER2
listed | <LF># The first floor<LF><LF>SCANNER1<LF> <TAB><CR><LF>#SCANNER3<LF>SCANNER2<LF><LF>
callers | OPTION SCANNER1 SCANNER2
listed | CT #2<LF>  CT3  <LF>
callers | CT #2   CT3 OPTION
listed | SCANNER1<LF>SCANNER1<LF>
callers | OPTION SCANNER1 SCANNER1";

#[test]
fn titles_of_a_file_and_of_options_are_ordered(rt: HostRuntime) -> Result<(), Fail> {
    asks(rt.alloc(), ORDERED)
}

static UNNAMED: &str = "dcmbox serve --port 104 --out files --caller OPTION
listed | SCANNER1<LF>
callers | OPTION
dcmbox serve --port 104 --out files
listed | SCANNER1<LF>
callers |";

#[test]
fn a_text_counts_where_a_file_is_named(rt: HostRuntime) -> Result<(), Fail> {
    asks(rt.alloc(), UNNAMED)
}

static WITHOUT_TITLES: &str = "dcmbox serve --port 104 --out files --callers scanners.txt
listed |
refused | error: --callers names 'scanners.txt', which has no title
listed | <LF>
refused | error: --callers names 'scanners.txt', which has no title
listed | <CR><LF> <LF><TAB><LF>
refused | error: --callers names 'scanners.txt', which has no title
listed | # SCANNER1
refused | error: --callers names 'scanners.txt', which has no title
listed | #<LF>#<LF>
refused | error: --callers names 'scanners.txt', which has no title
dcmbox serve --port 104 --out files --callers scanners.txt --caller OPTION
listed |
refused | error: --callers names 'scanners.txt', which has no title
listed | <LF>
refused | error: --callers names 'scanners.txt', which has no title
listed | <CR><LF> <LF><TAB><LF>
refused | error: --callers names 'scanners.txt', which has no title
listed | # SCANNER1
refused | error: --callers names 'scanners.txt', which has no title
listed | #<LF>#<LF>
refused | error: --callers names 'scanners.txt', which has no title";

#[test]
fn a_file_without_titles_is_refused(rt: HostRuntime) -> Result<(), Fail> {
    asks(rt.alloc(), WITHOUT_TITLES)
}

static NO_TITLES: &str = "dcmbox serve --port 104 --out files --callers scanners.txt
listed | SCANNER1<LF><LF># long<CR><LF>SEVENTEENLETTERSX<LF>SCANNER2<LF>
refused | error: --callers names 'scanners.txt', whose line 4 is no AE title of 1 to 16 characters: \
\"SEVENTEENLETTERSX\"
listed | A\\B
refused | error: --callers names 'scanners.txt', whose line 1 is no AE title of 1 to 16 characters: \"A\\\\B\"
listed | SCANNER1<LF>A<TAB>B<LF>
refused | error: --callers names 'scanners.txt', whose line 2 is no AE title of 1 to 16 characters: \"A\\tB\"
listed | SCANNER1<CR>SCANNER2<LF>
refused | error: --callers names 'scanners.txt', whose line 1 is no AE title of 1 to 16 characters: \
\"SCANNER1\\rSCANNER2\"
listed | CT #2<LF>US 3 # room 5<LF>
refused | error: --callers names 'scanners.txt', whose line 2 has a comment behind a title; \
it needs a line of its own: \"US 3 # room 5\"
listed | SCANNER1, SCANNER2<LF>
refused | error: --callers names 'scanners.txt', whose line 1 is no AE title of 1 to 16 characters: \
\"SCANNER1, SCANNER2\"
listed | SÄLE<LF>
refused | error: --callers names 'scanners.txt', whose line 1 is no AE title of 1 to 16 characters: \"SÄLE\"";

#[test]
fn a_line_that_is_no_title_is_refused(rt: HostRuntime) -> Result<(), Fail> {
    asks(rt.alloc(), NO_TITLES)
}

static MANY: &str = "dcmbox serve --port 104 --out files --caller=OPTION*64
callers count | 64
dcmbox serve --port 104 --out files --callers scanners.txt
listed | SCANNER1<LF>*4096
callers count | 4096
listed | SCANNER1<LF>*4097
refused | error: --callers and --caller may name 4096 titles at most
dcmbox serve --port 104 --out files --callers scanners.txt --caller OPTION
listed | SCANNER1<LF>*4095
callers count | 4096
listed | SCANNER1<LF>*4096
refused | error: --callers and --caller may name 4096 titles at most
dcmbox serve --port 104 --out files --callers scanners.txt --caller=OPTION*64
listed | SCANNER1<LF>*4032
callers count | 4096
listed | SCANNER1<LF>*4033
refused | error: --callers and --caller may name 4096 titles at most
dcmbox serve --port 104 --out files --caller=OPTION*65
refused | error: --caller may be given 64 times at most
dcmbox serve --port 104 --out files --callers scanners.txt --caller=OPTION*65
listed | SCANNER1<LF>
refused | error: --caller may be given 64 times at most";

#[test]
fn four_thousand_titles_may_call(rt: HostRuntime) -> Result<(), Fail> {
    asks(rt.alloc(), MANY)
}

//! `dhat_view` over worked profiles, its words, and the faults of a document.

use crate::tests::transcript::{DEMO, Transcript, play_all};

const VIEWS: &str = "$ dhat_view t
command: demo
points: 2
tb: 200

50.00% (100) 0x400: main (a.c:20)
50.00% (100) 0x500: f (a.c:10)
  50.00% (100) 0x400: main (a.c:20)
[0]
$ dhat_view --sort=eb t
command: demo
points: 2
eb: 100

100.00% (100) 0x400: main (a.c:20)
[0]
$ dhat_view --sort=eb --threshold=100 --depth 1 t
command: demo
points: 2
eb: 100

100.00% (100) 0x400: main (a.c:20)
[0]
$ dhat_view --sort=rb t
heapsuite: t: no figures for rb
[1]
$ dhat_view n
heapsuite: n: no such file
[3]
";

/// A profile with equal costs, small ones, a point without frames, texts that can't be shown as they are, and too many blocks.
const PLACES: &str =
    "{\"dhatFileVersion\":2,\"mode\":\"copy\",\"verb\":\"Copied\",\"bklt\":false,\"bkacc\":false,\"tu\":\"instrs\",\"Mtu\":\"Minstr\",\"cmd\":\" a\\tb\",\"pid\":7,\"te\":9,\"ftbl\":[\"[root]\",\"a\",\"b\",\" c\\n\",\"\"],\"pps\":[{\"tb\":5,\"tbk\":0,\"fs\":[1]},{\"tb\":40,\"tbk\":4611686018427387904,\"fs\":[2]},{\"tb\":40,\"tbk\":1,\"fs\":[3,2]},{\"tb\":3,\"tbk\":0,\"fs\":[1,2]},{\"tb\":2,\"tbk\":0,\"fs\":[1,4]},{\"tb\":10,\"tbk\":0,\"fs\":[]}]}\n";

const VIEWS_OF_PLACES: &str = "$ dhat_view --threshold=10 t
command: ?a?b
points: 6
tb: 100

40.00% (40) b
40.00% (40) ?c?
  40.00% (40) b
10.00% (10) a
  05.00% (5) in 2 places below 10.00%
[0]
$ dhat_view --threshold=11 --depth=1 t
command: ?a?b
points: 6
tb: 100

40.00% (40) b
40.00% (40) ?c?
10.00% (10) in 1 place below 11.00%
[0]
$ dhat_view --sort=rb t
heapsuite: t: no figures for rb
[1]
$ dhat_view --sort=tbk t
heapsuite: t: figures too large
[6]
";

/// A profile whose one point has another value for each figure.
const FIGURES: &str =
    "{\"dhatFileVersion\":2,\"mode\":\"heap\",\"verb\":\"Allocated\",\"bklt\":true,\"bkacc\":true,\"tu\":\"instrs\",\"Mtu\":\"Minstr\",\"cmd\":\"\",\"pid\":7,\"te\":99,\"tg\":50,\"pps\":[{\"tb\":1,\"tbk\":2,\"tl\":3,\"mb\":4,\"mbk\":5,\"gb\":6,\"gbk\":7,\"eb\":8,\"ebk\":9,\"rb\":10,\"wb\":11,\"fs\":[1]}],\"ftbl\":[\"[root]\",\"main\"]}\n";

const BY_EACH_FIGURE: &str = "$ dhat_view --sort=tb t
command: ?
points: 1
tb: 1

100.00% (1) main
[0]
$ dhat_view --sort=tbk t
command: ?
points: 1
tbk: 2

100.00% (2) main
[0]
$ dhat_view --sort=tl t
command: ?
points: 1
tl: 3

100.00% (3) main
[0]
$ dhat_view --sort=gb t
command: ?
points: 1
gb: 6

100.00% (6) main
[0]
$ dhat_view --sort=gbk t
command: ?
points: 1
gbk: 7

100.00% (7) main
[0]
$ dhat_view --sort=eb t
command: ?
points: 1
eb: 8

100.00% (8) main
[0]
$ dhat_view --sort=ebk t
command: ?
points: 1
ebk: 9

100.00% (9) main
[0]
$ dhat_view --sort=rb t
command: ?
points: 1
rb: 10

100.00% (10) main
[0]
$ dhat_view --sort=wb t
command: ?
points: 1
wb: 11

100.00% (11) main
[0]
";

const DOCUMENTS: &str =
    "> {\"dhatFileVersion\":2,\"mode\":\"heap\",\"verb\":\"Allocated\",\"bklt\":true,\"bkacc\":true,\"tu\":\"instrs\",\"Mtu\":\"Minstr\",\"tuth\":500,\"cmd\":\"./a\",\"pid\":7,\"te\":100,\"tg\":50,\"pps\":[{\"tb\":10,\"tbk\":1,\"tl\":40,\"mb\":10,\"mbk\":1,\"gb\":10,\"gbk\":1,\"eb\":0,\"ebk\":0,\"rb\":3,\"wb\":10,\"acc\":[-10,1],\"fs\":[1]}],\"ftbl\":[\"[root]\",\"0x1: main (a.c:1)\"]}
$ dhat_view t
command: ./a
points: 1
tb: 10

100.00% (10) 0x1: main (a.c:1)
[0]
> {\"dhatFileVersion\":2,\"mode\":\"heap\",\"verb\":\"Allocated\",\"bklt\":false,\"bkacc\":false,\"tu\":\"instrs\",\"Mtu\":\"Minstr\",\"cmd\":\"./a\",\"pid\":7,\"te\":100,\"pps\":[{\"tb\":10,\"tbk\":1,\"fs\":[1]},{\"tb\":4611686018427387904,\"tbk\":1,\"fs\":[]}],\"ftbl\":[\"[root]\",\"0x1: main (a.c:1)\"]}
$ dhat_view t
heapsuite: t: figures too large
[6]
> {\"dhatFileVersion\":2,\"mode\":\"heap\",\"verb\":\"Allocated\",\"bklt\":false,\"bkacc\":false,\"tu\":\"instrs\",\"Mtu\":\"Minstr\",\"cmd\":\"./a\",\"pid\":7,\"te\":100,\"pps\":[{\"tb\":10,\"tbk\":1,\"fs\":[2]}],\"ftbl\":[\"[root]\",\"0x1: main (a.c:1)\"]}
$ dhat_view t
heapsuite: t: point 0: frame 2 out of table
[1]
> {\"dhatFileVersion\":2,\"mode\":\"heap\",\"verb\":\"Allocated\",\"bklt\":false,\"bkacc\":false,\"tu\":\"instrs\",\"Mtu\":\"Minstr\",\"cmd\":\"./a\",\"pid\":7,\"te\":100,\"pps\":[{\"tb\":10,\"fs\":[]}],\"ftbl\":[]}
$ dhat_view t
heapsuite: t: point 0: missing key tbk
[1]
> {\"dhatFileVersion\":2,\"mode\":\"heap\",\"verb\":\"Allocated\",\"bklt\":true,\"bkacc\":true,\"tu\":\"instrs\",\"Mtu\":\"Minstr\",\"tuth\":500,\"cmd\":\"./a\",\"pid\":7,\"tg\":50,\"pps\":[{\"tb\":10,\"tbk\":1,\"tl\":40,\"mb\":10,\"mbk\":1,\"gb\":10,\"gbk\":1,\"eb\":0,\"ebk\":0,\"rb\":3,\"wb\":10,\"acc\":[-10,1],\"fs\":[1]}],\"ftbl\":[\"[root]\",\"0x1: main (a.c:1)\"]}
$ dhat_view t
heapsuite: t: missing key te
[1]
> {\"dhatFileVersion\":2,\"mode\":5}
$ dhat_view t
heapsuite: t: wrong kind of mode
[1]
> {\"dhatFileVersion\":1}
$ dhat_view t
heapsuite: t: file version not 2
[1]
> {
$ dhat_view t
heapsuite: t: not JSON
[1]
";

static RUNS: [Transcript; 4] = [
    ("dhat_view", DEMO, VIEWS),
    ("dhat_view of places", PLACES, VIEWS_OF_PLACES),
    ("dhat_view by each figure", FIGURES, BY_EACH_FIGURE),
    ("dhat_view of documents", "", DOCUMENTS),
];

#[test]
fn views(rt: HostRuntime) {
    play_all(&rt, rt.alloc(), &RUNS);
}

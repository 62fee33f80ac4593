//! `dhat` over the worked trace, over one of no lines, over one whose blocks live on, with a clock value that is no event, and over
//! one with two sizes in one stack, and its refusals.

use crate::tests::transcript::{Transcript, play_all};

const PROFILES: &str = "$ dhat e
{\"Mtu\":\"Mevents\",\"bkacc\":false,\"bklt\":true,\"cmd\":\"demo\",\"dhatFileVersion\":2,\"ftbl\":[\"[root]\",\"0x400: main (a.c:20)\",\"0x500: f (a.c:10)\"],\"mode\":\"heap\",\"pid\":0,\"pps\":[{\"eb\":100,\"ebk\":1,\"fs\":[1],\"gb\":0,\"gbk\":0,\"mb\":100,\"mbk\":1,\"tb\":100,\"tbk\":1,\"tl\":0},{\"eb\":0,\"ebk\":0,\"fs\":[2,1],\"gb\":100,\"gbk\":1,\"mb\":100,\"mbk\":1,\"tb\":100,\"tbk\":1,\"tl\":1}],\"te\":3,\"tg\":1,\"tu\":\"events\",\"tuth\":500,\"verb\":\"Allocated\"}
[0]
> v 10500 2
$ dhat t
{\"Mtu\":\"Mevents\",\"bkacc\":false,\"bklt\":true,\"cmd\":\"(none)\",\"dhatFileVersion\":2,\"ftbl\":[\"[root]\"],\"mode\":\"heap\",\"pid\":0,\"pps\":[],\"te\":0,\"tg\":0,\"tu\":\"events\",\"tuth\":500,\"verb\":\"Allocated\"}
[0]
> v 10500 2
> i 400 0
> t 1 0
> a 10 0
> a 8 1
> + 0
> + 0
> c 5
> - 0
> + 1
$ dhat t
{\"Mtu\":\"Mevents\",\"bkacc\":false,\"bklt\":true,\"cmd\":\"(none)\",\"dhatFileVersion\":2,\"ftbl\":[\"[root]\",\"(no stack)\",\"0x400: ???\"],\"mode\":\"heap\",\"pid\":0,\"pps\":[{\"eb\":16,\"ebk\":1,\"fs\":[1],\"gb\":32,\"gbk\":2,\"mb\":32,\"mbk\":2,\"tb\":32,\"tbk\":2,\"tl\":4},{\"eb\":8,\"ebk\":1,\"fs\":[2],\"gb\":0,\"gbk\":0,\"mb\":8,\"mbk\":1,\"tb\":8,\"tbk\":1,\"tl\":0}],\"te\":4,\"tg\":2,\"tu\":\"events\",\"tuth\":500,\"verb\":\"Allocated\"}
[0]
> v 10500 2
> a 1 0
> a 9 0
> + 0
> + 0
> - 0
> - 0
> + 1
$ dhat t
{\"Mtu\":\"Mevents\",\"bkacc\":false,\"bklt\":true,\"cmd\":\"(none)\",\"dhatFileVersion\":2,\"ftbl\":[\"[root]\",\"(no stack)\"],\"mode\":\"heap\",\"pid\":0,\"pps\":[{\"eb\":9,\"ebk\":1,\"fs\":[1],\"gb\":9,\"gbk\":1,\"mb\":9,\"mbk\":1,\"tb\":11,\"tbk\":3,\"tl\":4}],\"te\":5,\"tg\":5,\"tu\":\"events\",\"tuth\":500,\"verb\":\"Allocated\"}
[0]
> v 10500 2
> a 64 0
> - 0
$ dhat t
heapsuite: t:3: free of nothing
[1]
$ dhat --sort=tb e
(usage)
[2]
";

static RUNS: [Transcript; 1] = [("dhat", "", PROFILES)];

#[test]
fn dhat_profiles(rt: HostRuntime) {
    play_all(&rt, rt.alloc(), &RUNS);
}

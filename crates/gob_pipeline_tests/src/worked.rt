//! Whole units of small jobs, one for each construct.

use crate::branches::{Job, each_job_is_so};
use std::test::Fail;

const UNITS: [Job; 18] = [
    (
        "source.format=csv\nsource.columns=z:text,name:text\nconverter.classes=cast z int\nwriter.format=json\n",
        "1,\"a,b\"\r\n",
        "out0:{\"name\":\"a,b\",\"z\":1}\n",
        "1 0 1 0, 1 0 0",
    ),
    // A bad record fails the unit, or passes where one may.
    (
        "source.format=csv\nsource.columns=id:int,name:text\nwriter.format=csv\n",
        "1,a\n2\n3,c\n",
        "out0:1,a\n",
        "bad 4",
    ),
    (
        "source.format=csv\nsource.columns=id:int,name:text\nwriter.format=csv\ntask.skip.error.records=1\n",
        "1,a\n2\n3,c\n",
        "bad0:2\nout0:1,a\n3,c\n",
        "3 1 2 0, 2 0 0",
    ),
    (
        "source.format=json\nsource.columns=tags:text\nconverter.classes=explode tags |\nwriter.format=lines\n",
        "{\"tags\":\"a|b||\"}\n{\"tags\":null}\n",
        "out0:a\nb\n\n\n",
        "2 0 4 0, 4 0 0",
    ),
    (
        "source.format=csv\nsource.columns=n:text\nconverter.classes=cast n int\nwriter.format=csv\n\
         task.skip.error.records=1\n",
        "9223372036854775808\n-9223372036854775808\n",
        "bad0:9223372036854775808\nout0:-9223372036854775808\n",
        "2 1 1 0, 1 0 0",
    ),
    // The first policy that fails and isn't optional decides.
    (
        "source.format=lines\nwriter.format=lines\nqualitychecker.row.policies=eq line a; eq line b; eq line c\n\
         qualitychecker.row.policy.types=OPTIONAL,ERR_FILE,FAIL\n",
        "x\n",
        "err0:x\n",
        "1 0 1 0, 0 1 1",
    ),
    (
        "source.format=lines\nwriter.format=lines\nqualitychecker.row.policies=not eq line K; bytes line 0 1\n\
         qualitychecker.row.policy.types=FAIL,OPTIONAL\n",
        "ab\nc\n",
        "out0:ab\nc\n",
        "2 0 2 0, 2 0 1",
    ),
    // Behind a kill nothing counts.
    (
        "source.format=lines\nwriter.format=lines\nqualitychecker.row.policies=not eq line K\n\
         qualitychecker.row.policy.types=FAIL\n",
        "K\nb\nc\n",
        "",
        "kill 0 0 0",
    ),
    (
        "source.format=lines\nwriter.format=lines\nfork.operator.class=each\nfork.branches=2\n\
         fork.test.0=like line a*\nfork.test.1=like line *z\n",
        "az\nab\nqq\n",
        "out0:az\nab\nout1:az\n",
        "3 0 3 1, 2 0 0, 1 0 0",
    ),
    (
        "source.format=lines\nwriter.format=lines\nfork.branches=2\nconverter.classes.0=upper line\n",
        "a\n",
        "out0:A\nout1:a\n",
        "1 0 1 0, 1 0 0, 1 0 0",
    ),
    // The last of equal keys counts.
    (
        "source.format=lines\nsource.format = csv\nsource.columns=id:int\nsource.skip.header=true\n\
         writer.format=csv\n",
        "id\n7\n",
        "out0:7\n",
        "1 0 1 0, 1 0 0",
    ),
    // A row made before a bad one isn't kept.
    (
        "source.format=csv\nsource.columns=a:text\nconverter.classes=explode a |; cast a int\nwriter.format=csv\n\
         task.skip.error.records=1\n",
        "1|x\n2\n",
        "bad0:1|x\nout0:2\n",
        "2 1 1 0, 1 0 0",
    ),
    (
        "source.format=csv\nsource.columns=ts:int,m:text\nwriter.format=csv\nwriter.placer=day ts\n",
        "0,a\n86400,b\n,c\n86399,d\n",
        "out0:1970/01/01/0,a\n86399,d\nout0:1970/01/02/86400,b\nout0:none/,c\n",
        "4 0 4 0, 4 0 0",
    ),
    (
        "source.format=csv\nsource.columns=ts:int\nwriter.format=csv\nwriter.placer=day ts\n",
        "951782400\r\n253402300799\r\n253402300800\r\n-1\r\n",
        "out0:2000/02/29/951782400\nout0:9999/12/31/253402300799\nout0:none/253402300800\n-1\n",
        "4 0 4 0, 4 0 0",
    ),
    // Columns are kept, renamed, set and copied by their names.
    (
        "source.format=csv\nsource.columns=a:int,b:text,c:bool\n\
         converter.classes=keep c b; rename b d; copy d b; set c int 7; lower b\nwriter.format=json\n",
        "1,aB,true\n,,\n",
        "out0:{\"b\":\"ab\",\"c\":7,\"d\":\"aB\"}\n{\"b\":\"\",\"c\":7,\"d\":\"\"}\n",
        "2 0 2 0, 2 0 0",
    ),
    (
        "source.format=csv\nsource.columns=a:int,b:text,c:bool\n\
         converter.classes=drop b; cast a bool; cast c int; set e text \"\"\nwriter.format=csv\n\
         task.skip.error.records=2\n",
        "1,x,true\n0,y,false\n,z,\n2,w,true\n-1,v,\n",
        "bad0:2,w,true\n-1,v,\nout0:true,1,\nfalse,0,\n,,\n",
        "5 2 3 0, 3 0 0",
    ),
    // Null passes no test but `null` and what `not` turns round.
    (
        "source.format=json\nsource.columns=t:text\nconverter.classes=where not eq t b\n\
         fork.operator.class=each\nfork.branches=2\nfork.test.0=eq t a\nfork.test.1=not eq t a\n\
         qualitychecker.row.policies.1=not eq t c\nqualitychecker.row.policy.types.1=ERR_FILE\n\
         writer.format=json\n",
        "{}\n{\"t\":\"a\"}\n{\"t\":\"b\"}\n{\"t\":\"c\"}\n",
        "out0:{\"t\":\"a\"}\nout1:{\"t\":null}\nerr1:{\"t\":\"c\"}\n",
        "4 0 3 0, 1 0 0, 1 1 0",
    ),
    // What a bad line made in the branch before isn't kept.
    (
        "source.format=csv\nsource.columns=t:text\nfork.branches=2\nconverter.classes.1=cast t int\n\
         writer.format=csv\ntask.skip.error.records=1\n",
        "a\r\n1\r\n",
        "bad0:a\r\nout0:1\nout1:1\n",
        "2 1 1 0, 1 0 0, 1 0 0",
    ),
];

#[test]
fn units_are_made_as_each_construct_says(rt: HostRuntime) -> Result<(), Fail> {
    each_job_is_so(&rt, rt.alloc(), &UNITS)
}

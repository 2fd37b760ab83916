//! Lists of steps: each kind of step at each phase, slices in any order, and jobs that are handed out.
use crate::cores::agree;
use std::test::Fail;

const LISTS: &str = r#"
bp.registerBThread("A", function() {
  bp.sync({request: bp.Event("a")});
  bp.registerBThread("B", function() {
    bp.log.info("b");
    bp.registerBThread("D", function() { bp.log.info("d"); });
  });
  bp.registerBThread("C", function() { bp.log.info("c"); });
});
--
0:1000 seal 0:1000 seal pick 0:1000 seal 1:1000 0:1000 seal 0:1000 seal pick
    --> event ["a"]; done "A"; log "B" "b"; done "B"; log "C" "c"; done "C"; log "D" "d"; done "D";
    verdict quiet 1; --> sel end
pick --> illegal 0; -->
 --> -->
seal --> illegal 0; -->
0<x --> illegal 0; -->
0:1 seal --> illegal 1; -->
0:0 --> illegal 0; -->
1:5 --> illegal 0; -->
4294967295:1 --> illegal 0; -->
0:1000 0:1 --> illegal 1; -->
0:1000 pick --> illegal 1; -->
0:1000 seal pick --> illegal 2; -->
0:1000 seal seal --> illegal 2; -->
0:1000 seal 0:1000 seal pick 0:1000 seal 0:1000 seal --> illegal 8; event ["a"]; done "A"; --> sel
0:1000 seal 0:1000 seal pick 0:1000 seal 0:1000 1:1 seal --> illegal 9; event ["a"]; done "A"; --> sel
0:1000 seal 0:1000 seal pick 0:1000 seal 0:1000 2:1 --> illegal 8; event ["a"]; done "A"; --> sel
0:18446744073709551615 seal 0:1000 seal pick 0:1000 seal 0:1 1:1 0:1000 1:1000 seal 0:1000 seal pick
    --> event ["a"]; done "A"; log "B" "b"; done "B"; log "C" "c"; done "C"; log "D" "d"; done "D";
    verdict quiet 1; --> sel end
0:1*3 0:1000 seal 0:1 0:1000 seal pick 0:1*2 0:1000 seal 1:1 0:1 1:1000 0:1000 seal 0:1 0:1000 seal pick
    --> event ["a"]; done "A"; log "B" "b"; done "B"; log "C" "c"; done "C"; log "D" "d"; done "D";
    verdict quiet 1; --> sel end

bp.registerBThread("A", () => { for (let i = 0; i < 50; i++) {} bp.log.info("a") })
bp.registerBThread("B", () => { for (let i = 0; i < 50; i++) {} bp.log.info("b") })
--
0:99 seal 0:9999 1:9999 seal pick --> log "A" "a"; done "A"; log "B" "b"; done "B"; verdict quiet 0; --> end
0:99 seal 1:9999 0:9999 seal pick --> log "A" "a"; done "A"; log "B" "b"; done "B"; verdict quiet 0; --> end
0:99 seal 1:7*9 0:3*9 1:9999 0:9999 seal pick --> log "A" "a"; done "A"; log "B" "b"; done "B"; verdict quiet 0; --> end
0:99 seal 1:3 carry 1:1 0:9999 1:9999 seal pick --> log "A" "a"; done "A"; log "B" "b"; done "B"; verdict quiet 0; --> end
0:99 seal carry 0:9999 1:9999 seal pick --> log "A" "a"; done "A"; log "B" "b"; done "B"; verdict quiet 0; --> end
0:99 seal 1:9999 carry 0:9999 seal pick --> log "A" "a"; done "A"; log "B" "b"; done "B"; verdict quiet 0; --> end
0:99 seal 1:9999 carry 1:1 --> illegal 0; -->
0:99 seal carry seal --> illegal 0; -->

bp.registerBThread("A", () => { bp.sync({waitFor: bp.all}) })
--
0:99 seal 0:99 seal seal --> illegal 4; -->
0:99 seal 0:99 seal 0:5 --> illegal 4; -->
0:99 seal 0:99 seal 0<failed --> illegal 4; -->
0:99 seal 0:99 seal 2<x --> illegal 4; -->
0:99 seal 0:99 seal 4294967295<x --> illegal 4; -->
0:99 seal 0:99 seal 0<end 0<x --> illegal 5; --> eof
0:99 seal 0:99 seal 0<bad 0<end --> illegal 5; --> bad
0:99 seal 0:99 seal 0<end 0<end --> illegal 5; --> eof
0:99 seal 0:99 seal 0<end 1<x --> --> eof in
0:99 seal 0:99 seal 0<bad pick --> verdict bad 0 2; --> bad end
0:99 seal 0:99 seal 0<x pick 0<x --> illegal 6; external ["x"]; --> in sel
0:99 seal 0:99 seal 0<x pick pick --> illegal 6; external ["x"]; --> in sel
0:99 seal 0:99 seal pick pick 0<x pick 0:99 seal 1<end 0<end pick
    --> external ["x"]; done "A"; verdict quiet 1; --> in sel eof eof end
0:99 seal 0:99 seal 0<x*16385 --> illegal 16388; --> 16384
0:99 seal 0:99 seal 0<x*16384 1<end --> --> 16385

bp.registerBThread("A", () => { bp.sync({request: bp.Event("r")}) })
--
0:99 seal 0:99 seal 0<x pick 0:99 seal pick seal --> illegal 9; event ["r"]; done "A"; external ["x"]; --> in sel sel

bp.registerBThread("A", () => { bp.sync({interrupt: bp.Event("go")}) })
--
0:99 seal 0:99 seal 0<go pick seal 0<end 1<end pick
    --> external ["go"]; interrupted "A"; verdict quiet 1; --> in sel eof eof end
0:99 seal 0:99 seal 0<go pick pick --> illegal 6; external ["go"]; --> in sel
0:99 seal 0:99 seal 0<go pick 0:1 --> illegal 6; external ["go"]; --> in sel

bp.registerBThread("A", () => { bp.ASSERT(false, "no") })
bp.registerBThread("B", () => { bp.log.info("b") })
--
0:99 seal 1:99 0:99 seal --> verdict violated "A" "no"; --> end
0:99 seal 1:99 0:99 seal pick --> illegal 5; verdict violated "A" "no"; --> end
0:99 seal 1:99 0:99 seal seal --> illegal 5; verdict violated "A" "no"; --> end
0:99 seal 1:99 0:99 seal 0:1 --> illegal 5; verdict violated "A" "no"; --> end
0:99 seal 1:99 0:99 seal 0<x --> illegal 5; verdict violated "A" "no"; --> end
"#;

#[test]
fn lists(rt: HostRuntime) -> Result<(), Fail> {
    agree(&rt, rt.alloc(), LISTS)
}

//! Tables of what benches answer.
use crate::lines::benches_agree;
use std::test::Fail;

/// Who blocks, what is requested and what is selectable; statements are placed in any order.
const ANSWERS: &str = "
    blocker | 0: x ; - - - 0 / 1: ; - y - 0 | x --> none
    blocker | 0: x ; 0 0 0 0 / 1: ; 0 x 0 0 | x --> 1
    blocker | 0: ended / 1: y ; - x - 0 / 2: ; - * - 0 | x --> 1
    blocker | 0: ; - * - 0 / 1: ; - ! - 0 | x --> 0
    blocker | 0: ; - ! - 0 / 1: ; - * - 0 | x --> no truth of 0 on line 1
    requested | 0: x ; - - - 0 / 1: ; - y - 0 | x --> true
    requested | 0: y ; x x x 0 | x --> false
    requested | 5: e ; - - - 0 / 2: b ; - - - 0 / 9: ended / 5: x ; - - - 0 | e --> false
    requested | 5: e ; - - - 0 / 2: b ; - - - 0 / 9: ended / 5: x ; - - - 0 | x --> true
    enabled | 0: a b ; - - - 0 / 1: b c ; - - - 2 / 2: ; - a - 0 | --> outer None inner b c
    enabled | 0: a b ; - - - 0 / 1: b c ; - - - 2 / 2: ; - a - 0 | a c --> outer None inner b c
    enabled | 0: ended / 1: ended / 2: ; - a - 0 | a c --> outer Some(1) inner
    enabled | 0: y x y ; - - - 0 / 1: x go ; - - - 0 | --> outer None inner y x go
    enabled | 0: x ; - x - 0 | x x y x --> outer Some(2) inner
    enabled | 0: x ; - * - 0 | x y --> outer None inner
    enabled | 0: e ; - * - 0 / 1: ; - ! - 0 | --> no truth of 1 on line 1
    enabled | 5: e ; - - - 0 / 2: b ; - - - 0 / 7: z ; - - - 0 / 5: x ; - - - 0 | --> outer None inner b x z
    enabled | 4: d ; - - - 0 / 1: a ; - - - 0 / 3: c ; - - - 0 / 2: b ; - - - 0 / 3: ended / 0: ended | --> outer None inner a b d";

#[test]
fn benches_answer(rt: HostRuntime) -> Result<(), Fail> {
    benches_agree(&rt, rt.alloc(), ANSWERS)
}

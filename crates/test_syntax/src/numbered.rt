//! Programs whose numbering is written out by hand: a line a node, then the functions, the constants and the top level.
use bp_script::accept;
use js_program::Program;
use std::alloc::{AllocError, Global};
use std::test::Fail;

fn push_nodes(out: &mut String, program: &Program) -> Result<(), AllocError> {
    for number in 0..program.nodes() {
        let node = program.node(number);
        write!(out, "{} {:?}\n", node.line, node.form)?;
    }
    Ok(())
}

fn push_functions(out: &mut String, program: &Program) -> Result<(), AllocError> {
    for code in 0..program.functions() {
        write!(out, "{:?}\n", program.function(code))?;
    }
    Ok(())
}

fn push_constants(out: &mut String, program: &Program) -> Result<(), AllocError> {
    for number in 0..program.constants() {
        write!(out, "{:?}\n", program.constant(number))?;
    }
    Ok(())
}

fn shown(alloc: Global, script: &str) -> Result<String, Fail> {
    let program = accept(alloc, script.as_bytes())?;
    let mut out = String::new(alloc);
    push_nodes(&mut out, &program)?;
    push_functions(&mut out, &program)?;
    push_constants(&mut out, &program)?;
    write!(&mut out, "{:?}", program.top())?;
    Ok(out)
}

/// Between blank lines stand the lines of a program, the line `-->`, and those of its numbering.
const NUMBERED: &str = r#"
let total = 1 + 2
function add(a, b) { return a + b }
bp.registerBThread("t", function() {
let x = add(1, total); bp.sync(x); (() => x) })
-->
1 Number(Whole { n: 1 })
1 Number(Whole { n: 2 })
1 Binary(Add, 0, 1)
1 Declaration(Let, [Declared { variable: Constant(0), value: Some(2) }])
2 Read(Slot(0))
2 Read(Slot(1))
2 Binary(Add, 4, 5)
2 Return(6)
3 Text(Text { text: "t" })
4 Read(Constant(1))
4 Number(Whole { n: 1 })
4 Read(Constant(0))
4 Call(9, [10, 11])
4 Declaration(Let, [Declared { variable: Slot(0), value: Some(12) }])
4 Read(Slot(0))
4 Builtin(Sync, [14])
4 Expression(15)
4 Read(Slot(0))
4 Function(2)
4 Expression(18)
3 Function(1)
3 Builtin(RegisterBThread, [8, 20])
3 Expression(21)
Body { parameters: 2, slots: 2, captures: [], vars: [], content: Statements([7]), line: 2 }
Body { parameters: 0, slots: 1, captures: [], vars: [], content: Statements([13, 16, 19]), line: 3 }
Body { parameters: 0, slots: 1, captures: [0], vars: [], content: OneValue(17), line: 4 }
Undeclared
OfFunction(0)
Body { parameters: 0, slots: 0, captures: [], vars: [], content: Statements([3, 22]), line: 1 }

(function(a) { var b; { let c = 1 } var a = 1; (() => () => a) })
for (const y of []) Math.floor(y / 2)
-->
1 Declaration(Var, [Declared { variable: Slot(1), value: None }])
1 Number(Whole { n: 1 })
1 Declaration(Let, [Declared { variable: Slot(2), value: Some(1) }])
1 Block([2], [2])
1 Number(Whole { n: 1 })
1 Declaration(Var, [Declared { variable: Slot(0), value: Some(4) }])
1 Read(Slot(0))
1 Function(2)
1 Function(1)
1 Expression(8)
1 Function(0)
1 Expression(10)
2 List([])
2 Read(Slot(0))
2 Number(Whole { n: 2 })
2 FloorDivide(13, 14, [])
2 Expression(15)
2 ForOf(0, 12, 16)
Body { parameters: 1, slots: 3, captures: [], vars: [1], content: Statements([0, 3, 5, 9]), line: 1 }
Body { parameters: 0, slots: 1, captures: [0], vars: [], content: OneValue(7), line: 1 }
Body { parameters: 0, slots: 1, captures: [0], vars: [], content: OneValue(6), line: 1 }
Body { parameters: 0, slots: 1, captures: [], vars: [], content: Statements([11, 17]), line: 1 }

let o = {a: 1, b: true}, n = null
n = undefined
if (o.a) n = o["b"]; else;
while (!n) { n++; break }
for (let i = 0; i < 3; i++) { if (i) continue; f(-i) }
function f(x) { x ? 1 : 2; return }
o.g(bp.all)
-->
1 Number(Whole { n: 1 })
1 Truth(true)
1 Fields([Text { text: "a" }, Text { text: "b" }], [0, 1])
1 Null
1 Declaration(Let, [Declared { variable: Constant(0), value: Some(2) }, Declared { variable: Slot(0), value: Some(3) }])
2 Undefined
2 Assign(Set, 0, 5)
2 Expression(6)
3 Read(Constant(0))
3 Member(8, Text { text: "a" })
3 Read(Constant(0))
3 Text(Text { text: "b" })
3 Index(10, 11)
3 Assign(Set, 0, 12)
3 Expression(13)
3 Empty
3 IfElse(9, 14, 15)
4 Read(Slot(0))
4 Unary(Not, 17)
4 Update(Increment, After, 0)
4 Expression(19)
4 Break
4 Block([], [20, 21])
4 While(18, 22)
5 Number(Whole { n: 0 })
5 Declaration(Let, [Declared { variable: Slot(1), value: Some(24) }])
5 Read(Slot(1))
5 Number(Whole { n: 3 })
5 Binary(Less, 26, 27)
5 Update(Increment, After, 1)
5 Read(Slot(1))
5 Continue
5 If(30, 31)
5 Read(Constant(1))
5 Read(Slot(1))
5 Unary(Minus, 34)
5 Call(33, [35])
5 Expression(36)
5 Block([], [32, 37])
5 ForThree([1], Some(25), Some(28), Some(29), 38)
6 Read(Slot(0))
6 Number(Whole { n: 1 })
6 Number(Whole { n: 2 })
6 Conditional(40, 41, 42)
6 Expression(43)
6 ReturnNothing
7 Read(Constant(0))
7 Builtin(All, [])
7 Method(46, Text { text: "g" }, [47])
7 Expression(48)
Body { parameters: 1, slots: 1, captures: [], vars: [], content: Statements([44, 45]), line: 6 }
Undeclared
OfFunction(0)
Body { parameters: 0, slots: 2, captures: [], vars: [], content: Statements([4, 7, 16, 23, 39, 49]), line: 1 }
"#;

#[test]
fn programs_are_numbered(rt: HostRuntime) -> Result<(), Fail> {
    for run in NUMBERED.trim().split("\n\n") {
        let (script, want) = run.split_once("-->\n").ok_or("no numbering")?;
        assert!(rt; shown(rt.alloc(), script)?.as_str() == want, "{script}");
    }
    Ok(())
}

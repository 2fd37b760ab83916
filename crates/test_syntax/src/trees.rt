//! Texts and their trees.
use crate::lines::{Lines, agree};
use js_data::{Text, Whole};
use js_lexer::lex;
use js_parser::parse;
use js_tree::{
    AssignOp, Declarator, DeclareKind, Expr, Field, Fix, Form, Item, Name, Operator, Sign, Start,
    Step, Stmt, StmtForm, Tree,
};
use std::alloc::{AllocError, Global};
use std::test::Fail;

/// How many levels of a tree are shown; a call of a member is two.
const SHOWN: u32 = 512;

fn sign_text(sign: Sign) -> &'static str {
    match sign {
        Sign::Not => "!",
        Sign::Minus => "-",
        Sign::Plus => "+",
    }
}

fn step_text(step: Step, fix: Fix) -> &'static str {
    match (step, fix) {
        (Step::Increment, Fix::Before) => "++_",
        (Step::Increment, Fix::After) => "_++",
        (Step::Decrement, Fix::Before) => "--_",
        (Step::Decrement, Fix::After) => "_--",
    }
}

fn operator_text(operator: Operator) -> &'static str {
    match operator {
        Operator::Or => "||",
        Operator::And => "&&",
        Operator::Same => "===",
        Operator::NotSame => "!==",
        Operator::Equal => "==",
        Operator::NotEqual => "!=",
        Operator::Less => "<",
        Operator::LessOrEqual => "<=",
        Operator::Greater => ">",
        Operator::GreaterOrEqual => ">=",
        Operator::Add => "+",
        Operator::Subtract => "-",
        Operator::Multiply => "*",
        Operator::Divide => "/",
        Operator::Remainder => "%",
    }
}

fn assign_text(operator: AssignOp) -> &'static str {
    match operator {
        AssignOp::Set => "=",
        AssignOp::Add => "+=",
        AssignOp::Subtract => "-=",
        AssignOp::Multiply => "*=",
        AssignOp::Divide => "/=",
        AssignOp::Remainder => "%=",
    }
}

fn kind_text(kind: DeclareKind) -> &'static str {
    match kind {
        DeclareKind::Const => "const",
        DeclareKind::Let => "let",
        DeclareKind::Var => "var",
    }
}

/// A part of a list.
#[derive(Clone, Copy)]
enum Part<'a> {
    Word(&'a str),
    Names(&'a [Name]),
    Expr(&'a Expr),
    /// An expression that may be absent.
    Perhaps(&'a Option<Expr>),
    Exprs(&'a [Expr]),
    Fields(&'a [Field]),
    Declarators(&'a [Declarator]),
    Stmt(&'a Stmt),
    /// Statements between braces.
    Block(&'a [Stmt]),
}

fn word(out: &mut String, text: &str) -> Result<(), AllocError> {
    out.push(' ')?;
    out.push_str(text)
}

fn quoted(out: &mut String, text: &Text) -> Result<(), AllocError> {
    out.push('"')?;
    out.push_str(text.as_str())?;
    out.push('"')
}

fn number(out: &mut String, n: Whole) -> Result<(), AllocError> {
    write!(out, "{}", n.get())
}

fn names(out: &mut String, names: &[Name]) -> Result<(), AllocError> {
    out.push_str(" (")?;
    for (place, name) in names.iter().enumerate() {
        if place > 0 {
            out.push(' ')?;
        }
        out.push_str(name.text.as_str())?;
    }
    out.push(')')
}

/// The part after a blank.
#[cycle(shown)]
fn push(out: &mut String, part: &Part<'_>, room: u32) -> Result<(), AllocError> {
    match part {
        Part::Word(text) => word(out, text),
        Part::Names(list) => names(out, list),
        Part::Expr(tree) => expr(out, " ", tree, room),
        Part::Perhaps(None) => out.push_str(" _"),
        Part::Perhaps(Some(tree)) => expr(out, " ", tree, room),
        Part::Exprs(trees) => exprs(out, trees, room),
        Part::Fields(trees) => fields(out, trees, room),
        Part::Declarators(trees) => declarators(out, trees, room),
        Part::Stmt(tree) => stmt(out, " ", tree, room),
        Part::Block(trees) => block(out, " {", trees, room),
    }
}

/// The parts that are left of a list, and its end.
#[cycle(shown)]
fn rest(out: &mut String, parts: &[Part<'_>], room: u32) -> Result<(), AllocError> {
    for part in parts {
        push(out, part, room)?;
    }
    out.push(')')
}

/// A list of a head and parts.
#[cycle(shown)]
fn list(out: &mut String, head: &str, parts: &[Part<'_>], room: u32) -> Result<(), AllocError> {
    out.push('(')?;
    out.push_str(head)?;
    rest(out, parts, room)
}

/// An expression after a text; past the room only dots.
#[cycle(shown)]
fn expr(out: &mut String, before: &str, tree: &Expr, room: u32) -> Result<(), AllocError> {
    out.push_str(before)?;
    if room == 0 {
        return out.push_str("..");
    }
    for _ in 0..tree.parens {
        out.push('\'')?;
    }
    form(out, &tree.form, room - 1)
}

#[cycle(shown)]
fn exprs(out: &mut String, trees: &[Expr], room: u32) -> Result<(), AllocError> {
    for tree in trees {
        expr(out, " ", tree, room)?;
    }
    Ok(())
}

#[cycle(shown)]
fn fields(out: &mut String, trees: &[Field], room: u32) -> Result<(), AllocError> {
    for field in trees {
        out.push_str(" (")?;
        out.push_str(field.key.as_str())?;
        expr(out, " ", &field.value, room)?;
        out.push(')')?;
    }
    Ok(())
}

#[cycle(shown)]
fn declarators(out: &mut String, trees: &[Declarator], room: u32) -> Result<(), AllocError> {
    for tree in trees {
        match &tree.value {
            None => word(out, tree.name.text.as_str())?,
            Some(value) => {
                out.push_str(" (")?;
                out.push_str(tree.name.text.as_str())?;
                expr(out, " ", value, room)?;
                out.push(')')?;
            }
        }
    }
    Ok(())
}

#[cycle(shown)]
fn form(out: &mut String, form: &Form, room: u32) -> Result<(), AllocError> {
    match form {
        Form::Number(n) => number(out, *n),
        Form::Text(text) => quoted(out, text),
        Form::Truth(true) => out.push_str("true"),
        Form::Truth(false) => out.push_str("false"),
        Form::Null => out.push_str("null"),
        Form::Use(name) => out.push_str(name.text.as_str()),
        Form::List(trees) => list(out, "list", &[Part::Exprs(trees)], room),
        Form::Fields(trees) => list(out, "fields", &[Part::Fields(trees)], room),
        Form::Member(a, name) => {
            list(out, ".", &[Part::Expr(a), Part::Word(name.as_str())], room)
        }
        Form::Index(a, i) => list(out, "at", &[Part::Expr(a), Part::Expr(i)], room),
        Form::Call(f, trees) => list(out, "call", &[Part::Expr(f), Part::Exprs(trees)], room),
        Form::Unary(sign, a) => list(out, sign_text(*sign), &[Part::Expr(a)], room),
        Form::Update(step, fix, name) => {
            let head = step_text(*step, *fix);
            list(out, head, &[Part::Word(name.text.as_str())], room)
        }
        Form::Binary(operator, a, b) => {
            let head = operator_text(*operator);
            list(out, head, &[Part::Expr(a), Part::Expr(b)], room)
        }
        Form::Conditional(a, b, c) => {
            list(
                out,
                "?",
                &[Part::Expr(a), Part::Expr(b), Part::Expr(c)],
                room,
            )
        }
        Form::Assign(operator, name, a) => {
            let parts = [Part::Word(name.text.as_str()), Part::Expr(a)];
            list(out, assign_text(*operator), &parts, room)
        }
        Form::ArrowValue(_, params, a) => {
            list(out, "=>", &[Part::Names(params), Part::Expr(a)], room)
        }
        Form::ArrowBlock(_, params, body) => {
            list(out, "=>", &[Part::Names(params), Part::Block(body)], room)
        }
        Form::Function(_, params, body) => {
            list(
                out,
                "function",
                &[Part::Names(params), Part::Block(body)],
                room,
            )
        }
    }
}

#[cycle(shown)]
fn start(out: &mut String, tree: &Start, room: u32) -> Result<(), AllocError> {
    match tree {
        Start::Nothing => out.push('_'),
        Start::Declares(_, kind, trees) => {
            list(out, kind_text(*kind), &[Part::Declarators(trees)], room)
        }
        Start::Evaluates(tree) => expr(out, "", tree, room),
    }
}

/// A statement after a text; past the room only dots.
#[cycle(shown)]
fn stmt(out: &mut String, before: &str, tree: &Stmt, room: u32) -> Result<(), AllocError> {
    out.push_str(before)?;
    if room == 0 {
        return out.push_str("..");
    }
    stmt_form(out, &tree.form, room - 1)
}

/// Statements after a brace, and the brace that closes them.
#[cycle(shown)]
fn block(out: &mut String, before: &str, trees: &[Stmt], room: u32) -> Result<(), AllocError> {
    out.push_str(before)?;
    for (place, tree) in trees.iter().enumerate() {
        stmt(out, if place > 0 { " " } else { "" }, tree, room)?;
    }
    out.push('}')
}

#[cycle(shown)]
fn stmt_form(out: &mut String, form: &StmtForm, room: u32) -> Result<(), AllocError> {
    match form {
        StmtForm::Empty => out.push(';'),
        StmtForm::Block(trees) => block(out, "{", trees, room),
        StmtForm::Declaration(kind, trees) => {
            list(out, kind_text(*kind), &[Part::Declarators(trees)], room)
        }
        StmtForm::Expression(tree) => expr(out, "", tree, room),
        StmtForm::If(test, body) => list(out, "if", &[Part::Expr(test), Part::Stmt(body)], room),
        StmtForm::IfElse(test, body, other) => {
            let parts = [Part::Expr(test), Part::Stmt(body), Part::Stmt(other)];
            list(out, "if", &parts, room)
        }
        StmtForm::While(test, body) => {
            list(out, "while", &[Part::Expr(test), Part::Stmt(body)], room)
        }
        StmtForm::ForThree(first, test, next, body) => {
            out.push_str("(for ")?;
            start(out, first, room)?;
            let parts = [Part::Perhaps(test), Part::Perhaps(next), Part::Stmt(body)];
            rest(out, &parts, room)
        }
        StmtForm::ForOf(kind, name, trees, body) => {
            let (kind, name) = (Part::Word(kind_text(*kind)), Part::Word(name.text.as_str()));
            list(
                out,
                "of",
                &[kind, name, Part::Expr(trees), Part::Stmt(body)],
                room,
            )
        }
        StmtForm::Break(_) => out.push_str("break"),
        StmtForm::Continue(_) => out.push_str("continue"),
        StmtForm::ReturnNothing(_) => out.push_str("return"),
        StmtForm::Return(_, value) => list(out, "return", &[Part::Expr(value)], room),
    }
}

fn item(out: &mut String, tree: &Item) -> Result<(), AllocError> {
    match tree {
        Item::Statement(_, tree) => stmt(out, "", tree, SHOWN),
        Item::Function(_, name, params, body) => {
            let name = Part::Word(name.text.as_str());
            list(
                out,
                "function",
                &[name, Part::Names(params), Part::Block(body)],
                SHOWN,
            )
        }
    }
}

fn shown_tree(alloc: Global, tree: &Tree) -> Result<String, AllocError> {
    let mut out = String::new(alloc);
    for (place, tree) in tree.items.iter().enumerate() {
        if place > 0 {
            out.push(' ')?;
        }
        item(&mut out, tree)?;
    }
    Ok(out)
}

/// The tree of a text, as lists in parentheses, each with its form first and a `'` for each pair round an expression;
/// or that there is none.
pub fn shown(alloc: Global, bytes: &[u8]) -> Result<String, AllocError> {
    if bytes.len() > 1_048_576 {
        return format!(in alloc; "too long");
    }
    let tokens = match lex(alloc, bytes) {
        Ok(tokens) => tokens,
        Err(_) => return format!(in alloc; "refused"),
    };
    match parse(alloc, &tokens) {
        Ok(tree) => shown_tree(alloc, &tree),
        Err(_) => format!(in alloc; "no tree"),
    }
}

/// Whether the text of the cell has this tree.
pub fn agrees(alloc: Global, cell: &str, want: &str) -> Result<bool, Fail> {
    let text = cell.replace(alloc, "\\n", "\n")?;
    Ok(shown(alloc, text.as_bytes())?.as_str() == want)
}

/// A program lists statements and functions.
const PROGRAMS: &str = r#"
-->
a; b --> a b
function f(x, y) { return x } --> (function f (x y) {(return x)})
function f() {} function g(x,) {} a --> (function f () {}) (function g (x) {}) a
"#;

/// Statements, by their first token.
const STATEMENTS: &str = r#"
{} --> {}
{ a; { b } } --> {a {b}}
const a = 1 --> (const (a 1))
let a, b = 2, c --> (let a (b 2) c)
var a --> (var a)
let of = 1 --> (let (of 1))
(function() {})() --> (call '(function () {}))
({a: 1}) --> '(fields (a 1))
!function() {} --> (! (function () {}))
if (a) b; else c --> (if a b c)
if (a) b --> (if a b)
if (a) if (b) c; else d --> (if a (if b c d))
if (a) { if (b) c } else d --> (if a {(if b c)} d)
if (a) b; else if (c) d; else e --> (if a b (if c d e))
if (a) b\nelse c --> (if a b c)
while (a) b --> (while a b)
while (a); --> (while a ;)
;; --> ; ;
break; continue; return; return a --> break continue return (return a)
"#;

/// Loops with three parts, and over lists.
const LOOPS: &str = r#"
for (let i = 0; i < 3; i++) a --> (for (let (i 0)) (< i 3) (_++ i) a)
for (;;) {} --> (for _ _ _ {})
for (i = 0; ; ) a --> (for (= i 0) _ _ a)
for (; a; ) b --> (for _ a _ b)
for (; ; a) b --> (for _ _ a b)
for (var i, j = 1; ; ) a --> (for (var i (j 1)) _ _ a)
for (const x = 1; ; ) a --> (for (const (x 1)) _ _ a)
for ({}; ; ) a --> (for (fields) _ _ a)
for (function() {}; ; ) a --> (for (function () {}) _ _ a)
for (const x of xs) a --> (of const x xs a)
for (let x of a.b()) {} --> (of let x (call (. a b)) {})
for (let x of a = b) {} --> (of let x (= a b) {})
for (let of of xs) a --> (of let of xs a)
for (let of = 1; ; ) a --> (for (let (of 1)) _ _ a)
"#;

/// Bodies are no lexical declarations.
const BODIES: &str = r#"
if (a) var b = 1 --> (if a (var (b 1)))
if (a) b; else var c --> (if a b (var c))
while (a) { let b } --> (while a {(let b)})
while (a) while (b) return --> (while a (while b return))
"#;

/// Where the end of a statement may be absent.
const ENDS: &str = r#"
a\nb --> a b
{ a } --> {a}
a\n;b --> a b
let a = 1\nlet b = 2 --> (let (a 1)) (let (b 2))
a\n(b) --> (call a b)
a\n[b] --> (at a b)
a++\n(b) --> (_++ a) 'b
a--\n[b] --> (_-- a) (list b)
a = () => {}\n(b) --> (= a (=> () {})) 'b
a = () => {}\n[b] --> (= a (=> () {})) (list b)
a = () => {}\n+ b --> (= a (=> () {})) (+ b)
a = () => {}\n- b --> (= a (=> () {})) (- b)
a = b => c\n(d) --> (= a (=> (b) (call c d)))
a = (() => {})\n(b) --> (= a (call '(=> () {}) b))
let f = function() {}\n(b) --> (let (f (call (function () {}) b)))
a\n+ b --> (+ a b)
a\n- b --> (- a b)
a++\n+ b --> (+ (_++ a) b)
let a\n(b) --> (let a) 'b
let a\n[b] --> (let a) (list b)
let a\n+ b --> (let a) (+ b)
let a\n- b --> (let a) (- b)
break\n(a) --> break 'a
continue\n[a] --> continue (list a)
return\n- a --> return (- a)
return\n(a) --> return 'a
return\na --> return a
return (\na) --> (return 'a)
continue\n;a --> continue a
if (a) break\n; else b --> (if a break b)
a\n.b --> (. a b)
a\n* b --> (* a b)
a\n? b : c --> (? a b c)
a\n= b --> (= a b)
let a = b\n, c --> (let (a b) c)
a\n++b --> a (++_ b)
a ++\nb --> (_++ a) b
"#;

/// Assignments, arrows and conditionals.
const ASSIGNMENTS: &str = r#"
a = b = c --> (= a (= b c))
a += b -= c *= d /= e %= f --> (+= a (-= b (*= c (/= d (%= e f)))))
x => x --> (=> (x) x)
() => a --> (=> () a)
(a, b) => a --> (=> (a b) a)
(a, b,) => a --> (=> (a b) a)
a => b => c --> (=> (a) (=> (b) c))
a => { return a } --> (=> (a) {(return a)})
a => ({}) --> (=> (a) '(fields))
a => b = c --> (=> (a) (= b c))
a =>\nb --> (=> (a) b)
a ? b : c --> (? a b c)
a ? b : c ? d : e --> (? a b (? c d e))
a ? b ? c : d : e --> (? a (? b c d) e)
a ? b = 1 : c = 2 --> (? a (= b 1) (= c 2))
a || b ? c : d => e --> (? (|| a b) c (=> (d) e))
"#;

/// Operators, by their level.
const OPERATORS: &str = r#"
a - b - c --> (- (- a b) c)
a - (b - c) --> (- a '(- b c))
a || b && c --> (|| a (&& b c))
a && b || c --> (|| (&& a b) c)
a && b == c --> (&& a (== b c))
a === b !== c == d != e --> (!= (== (!== (=== a b) c) d) e)
a == b < c --> (== a (< b c))
a < b <= c > d >= e --> (>= (> (<= (< a b) c) d) e)
a < b + c --> (< a (+ b c))
a + b * c - d --> (- (+ a (* b c)) d)
a * b / c % d --> (% (/ (* a b) c) d)
!-+a --> (! (- (+ a)))
-a * b --> (* (- a) b)
a - -b --> (- a (- b))
+ ++a --> (+ (++_ a))
--a --> (--_ a)
- a-- --> (- (_-- a))
a++ + b --> (+ (_++ a) b)
"#;

/// Calls and primaries.
const CALLS: &str = r#"
a.b[c](d).e --> (. (call (at (. a b) c) d) e)
a.if.switch.__proto__ --> (. (. (. a if) switch) __proto__)
!a.b() --> (! (call (. a b)))
f(a)(b, c,) --> (call (call f a) b c)
1 .a --> (. 1 a)
f(x => x, {a}) --> (call f (=> (x) x) (fields (a a)))
0x1F --> 31
'x y' --> "x y"
[true, false, null] --> (list true false null)
[] --> (list)
[1,] --> (list 1)
a = {b: c} --> (= a (fields (b c)))
({a: 1, 'b c': 2, if: 3, switch: 4, d,}) --> '(fields (a 1) (b c 2) (if 3) (switch 4) (d d))
f(function(x) { return x }) --> (call f (function (x) {(return x)}))
((a)) --> ''a
"#;

/// Words that are unsupported elsewhere, after a dot and as keys.
const KEYS: &str = r#"
({switch: 1}).switch --> (. '(fields (switch 1)) switch)
({__proto__}) --> '(fields (__proto__ __proto__))
c ? a.__proto__ : 1 --> (? c (. a __proto__) 1)
"#;

/// A script without semicolons.
const SCRIPT: &str = r#"
const f = () => {\n  return\n  1\n}\nconst g = x => x\nconst h = g\n(2)\nbp.registerBThread("A",
    () => {\n  bp.log.info(f())\n  bp.log.info(h)\n})\n
    --> (const (f (=> () {return 1}))) (const (g (=> (x) x))) (const (h (call g 2)))
    (call (. bp registerBThread) "A" (=> () {(call (. (. bp log) info) (call f)) (call (. (. bp log) info) h)}))
"#;

#[test]
fn texts_have_their_trees(rt: HostRuntime) -> Result<(), Fail> {
    for table in [
        PROGRAMS,
        STATEMENTS,
        LOOPS,
        BODIES,
        ENDS,
        ASSIGNMENTS,
        OPERATORS,
        CALLS,
        KEYS,
        SCRIPT,
    ] {
        agree(&rt, rt.alloc(), Lines::Trees, table)?;
    }
    Ok(())
}

//! The edge of nesting: the deepest trees, and one level more.
use crate::lines::{Lines, agree};
use crate::trees::shown;
use std::alloc::Global;
use std::test::Fail;

/// The shape with what stands between `«` and `»` written out: its front so many times, its middle, and its back so
/// many times.
fn nested(alloc: Global, shape: &str, times: usize) -> Result<String, Fail> {
    let (before, rest) = shape.split_once("«").ok_or("no front")?;
    let (nest, behind) = rest.split_once("»").ok_or("no end")?;
    let (front, rest) = nest.split_once("|").ok_or("no middle")?;
    let (middle, back) = rest.split_once("|").ok_or("no back")?;
    let (front, back) = (front.repeat(alloc, times)?, back.repeat(alloc, times)?);
    Ok(format!(in alloc;
        "{before}{}{middle}{}{behind}",
        front.as_str(),
        back.as_str()
    )?)
}

/// How many times, a text and its tree: this many nest, and with one more there is no tree. First each form that nests,
/// then what a form's head or list may hold, and then what is no level of its own: `bp`, `Math` and `bp.log` before a
/// dot, and a member that is called; parentheses round them are levels.
const NESTINGS: &str = "
200 «{||}» --> «{||}»
199 «{|;|}» --> «{|;|}»
199 «if(a)|;|» --> «(if a |;|)»
199 «if(a);else |;|» --> «(if a ; |;|)»
199 «while(a)|;|» --> «(while a |;|)»
199 «for(;;)|;|» --> «(for _ _ _ |;|)»
199 «for(const x of a)|;|» --> «(of const x a |;|)»
198 «(|a|)» --> «'|a|»
198 «[|a|]» --> «(list |a|)»
198 «f(|a|)» --> «(call f |a|)»
198 «|f|()» --> «(call |f|)»
198 «|a|.b» --> «(. |a| b)»
198 «|a|.b()» --> «(call (. |a| b))»
198 «|a|[b]» --> «(at |a| b)»
198 «|a|-b» --> «(- |a| b)»
198 «- |a|» --> «(- |a|)»
198 «a=|a|» --> «(= a |a|)»
198 «a=>|a|» --> «(=> (a) |a|)»
198 «b?c:|a|» --> «(? b c |a|)»
198 let a=«[|b|]» --> (let (a «(list |b|)»))
198 for(«[|a|]»;;); --> (for «(list |a|)» _ _ ;)
197 for(let a=«[|b|]»;;); --> (for (let (a «(list |b|)»)) _ _ ;)
199 function f(){«{||}»} --> (function f () {«{||}»})
197 () => {«{|;|}»} --> (=> () {«{|;|}»})
198 «[|bp.all|]» --> «(list |(. bp all)|)»
197 «[|a.all|]» --> «(list |(. a all)|)»
197 «[|(bp).all|]» --> «(list |(. 'bp all)|)»
198 «[|bp.all()|]» --> «(list |(call (. bp all))|)»
197 «[|a.b()|]» --> «(list |(call (. a b))|)»
196 «[|(a.b)()|]» --> «(list |(call '(. a b))|)»
198 «[|bp.log.info()|]» --> «(list |(call (. (. bp log) info))|)»
197 «[|(bp.log).info()|]» --> «(list |(call (. '(. bp log) info))|)»
198 «bp.Event(|a|)» --> «(call (. bp Event) |a|)»
196 «[|Math.floor(a/b)|]» --> «(list |(call (. Math floor) (/ a b))|)»
";

/// Whether the shape with its nest this many times has this tree, or none.
fn is_shown(alloc: Global, shape: &str, count: usize, want: &str) -> Result<bool, Fail> {
    let text = nested(alloc, shape, count)?;
    Ok(shown(alloc, text.as_bytes())?.as_str() == want)
}

/// Whether this many nest with this tree, and with one more there is none.
pub fn agrees(alloc: Global, cell: &str, tree: &str) -> Result<bool, Fail> {
    let (count, shape) = cell.split_once(" ").ok_or("no number")?;
    let count = count.parse::<usize>()?;
    let tree = nested(alloc, tree, count)?;
    Ok(
        is_shown(alloc, shape, count, tree.as_str())?
            && is_shown(alloc, shape, count.saturating_add(1), "no tree")?,
    )
}

#[test]
fn nesting_of_at_most_200(rt: HostRuntime) -> Result<(), Fail> {
    agree(&rt, rt.alloc(), Lines::Nestings, NESTINGS)
}

//! Values of expressions. Each call stands for its definition over any scene; want of memory aside.

ghost use Rattle.std.specs.Prelude.{[], map};
ghost use Rattle.contract_words.specs.Gives.{Gives};
ghost use Rattle.pdata_value.specs.Answers.{Answers};
ghost use Rattle.pdata_value.specs.Errors.{eval_fault};
ghost use Rattle.pdata_value.specs.Value.{pairs};
ghost use Rattle.pdata_value.specs.Pairs.{put_all};
ghost use Rattle.pdata_tree.specs.Operations.{log_trees};
ghost use Rattle.pdata_tree.specs.Seen.{Sees, seen};
ghost use Rattle.ottl_eval.specs.Converting.{of_one};
ghost use Rattle.ottl_eval.specs.Stages.{stage};
ghost use Rattle.ottl_eval.specs.Values as spec;
ghost use Rattle.ottl_eval.specs.Values.{all_hold, any_holds, parts_put, terms_worth, truth_in};

use crate::arithmetic::arithmetic;
use crate::cache::Cache;
use crate::comparing::compared_where_seen;
use crate::converting::{convert, convert_one};
use crate::matchers::KeptMatchers;
use crate::paths::look_path;
use item_list::ItemList;
use ottl_plan::{Conversion, PlannedCompare, PlannedExpr, PlannedPart, PlannedTerm};
use pdata_tree::{Scene, Seen};
use pdata_value::{EvalErr, EvalStop, Pairs, Value, Values, made};
use std::alloc::Global;

/// As `eval`, with matchers that the caller keeps.
pub fn eval_with<'p, S: Scene>(
    alloc: Global,
    scene: &S,
    cache: &Cache,
    matchers: &mut KeptMatchers<'p>,
    expr: &'p PlannedExpr,
) -> Result<Value, EvalStop>
    requires { S.stands scene.now }
    ensures { Answers result (spec.value log_trees expr.now
        (stage (S.tree scene.now) (S.kind scene.now) (S.place scene.now) cache.now)) }
{
    let seen = eval_seen(alloc, expr, scene, cache, matchers)?;
    Ok(seen.into_value()?)
}

/// Whether a condition holds.
pub(crate) fn eval_truth<'p, S: Scene>(
    alloc: Global,
    scene: &S,
    cache: &Cache,
    matchers: &mut KeptMatchers<'p>,
    expr: &'p PlannedExpr,
) -> Result<bool, EvalStop>
    requires { S.stands scene.now }
    ensures { Answers result (spec.holds log_trees expr.now
        (stage (S.tree scene.now) (S.kind scene.now) (S.place scene.now) cache.now)) }
{
    let seen = eval_seen(alloc, expr, scene, cache, matchers)?;
    truth_in(&seen)
}

// A literal is lent, and so is what stands at a path; everything else is made.
#[cycle(eval)]
#[tactic(auto, using(crate::proofs::Worths::worths_of))]
fn eval_seen<'p: 's, 's, S: Scene>(
    alloc: Global,
    expr: &'p PlannedExpr,
    scene: &'s S,
    cache: &'s Cache,
    matchers: &mut KeptMatchers<'p>,
) -> Result<Seen<'s>, EvalStop>
    requires { S.stands scene.now }
    ensures { Sees result (spec.value log_trees expr.now
        (stage (S.tree scene.now) (S.kind scene.now) (S.place scene.now) cache.now)) }
{
    match expr {
        PlannedExpr::Literal(value) => Ok(Seen::Lent(value)),
        PlannedExpr::List(exprs) => {
            let values = eval_each(alloc, exprs.as_slice(), scene, cache, matchers)?;
            Ok(Seen::Made(made(Value::List(Values::from_list(values)))?))
        }
        PlannedExpr::Map(parts) => {
            let map = eval_parts(alloc, parts.as_slice(), scene, cache, matchers)?;
            Ok(Seen::Made(made(Value::Map(map))?))
        }
        PlannedExpr::Convert(call) => {
            let value = eval_conversion(alloc, call, scene, cache, matchers)?;
            Ok(Seen::Made(value))
        }
        PlannedExpr::Path(path) => look_path(scene, cache, path),
        PlannedExpr::Sum(terms) => {
            let value = eval_terms(alloc, terms.as_slice(), scene, cache, matchers)?;
            Ok(Seen::Made(value))
        }
        PlannedExpr::Product(terms) => {
            let value = eval_terms(alloc, terms.as_slice(), scene, cache, matchers)?;
            Ok(Seen::Made(value))
        }
        PlannedExpr::Compare(sides) => {
            let truth = eval_comparison(alloc, sides, scene, cache, matchers)?;
            Ok(Seen::Made(Value::Truth(truth)))
        }
        PlannedExpr::Not(operand) => {
            let seen = eval_seen(alloc, operand.get(), scene, cache, matchers)?;
            let truth = truth_in(&seen)?;
            Ok(Seen::Made(Value::Truth(!truth)))
        }
        PlannedExpr::And(exprs) => {
            let truth = eval_all(alloc, exprs.as_slice(), scene, cache, matchers)?;
            Ok(Seen::Made(Value::Truth(truth)))
        }
        PlannedExpr::Or(exprs) => {
            let truth = eval_any(alloc, exprs.as_slice(), scene, cache, matchers)?;
            Ok(Seen::Made(Value::Truth(truth)))
        }
    }
}

// The values of a list, from left to right.
#[cycle(eval)]
pub(crate) fn eval_each<'p, S: Scene>(
    alloc: Global,
    exprs: &'p [PlannedExpr],
    scene: &S,
    cache: &Cache,
    matchers: &mut KeptMatchers<'p>,
) -> Result<ItemList<Value>, EvalStop>
    requires { S.stands scene.now }
    ensures { Answers result (spec.values log_trees exprs.now
        (stage (S.tree scene.now) (S.kind scene.now) (S.place scene.now) cache.now)) }
{
    let mut values = ItemList::with_capacity(alloc, exprs.len())?;
    for expr in exprs {
        let seen = eval_seen(alloc, expr, scene, cache, matchers)?;
        values.push(seen.into_value()?)?;
    }
    Ok(values)
}

// The pairs of a map literal, put one after another.
#[cycle(eval)]
fn eval_parts<'p, S: Scene>(
    alloc: Global,
    parts: &'p [PlannedPart],
    scene: &S,
    cache: &Cache,
    matchers: &mut KeptMatchers<'p>,
) -> Result<Pairs, EvalStop>
    requires { S.stands scene.now }
    ensures { Gives pairs eval_fault result (parts_put [] (spec.part_values log_trees parts.now
        (stage (S.tree scene.now) (S.kind scene.now) (S.place scene.now) cache.now))) }
{
    let mut map = Pairs::new(alloc);
    for part in parts {
        let seen = eval_seen(alloc, &part.value, scene, cache, matchers)?;
        map.put(part.key.as_str(), seen.into_value()?)?;
    }
    Ok(map)
}

// Terms, grouped to the left.
#[cycle(eval)]
fn eval_terms<'p, S: Scene>(
    alloc: Global,
    terms: &'p [PlannedTerm],
    scene: &S,
    cache: &Cache,
    matchers: &mut KeptMatchers<'p>,
) -> Result<Value, EvalStop>
    requires { S.stands scene.now }
    ensures { Answers result (terms_worth (map (spec.term_of log_trees) terms.now)
        (stage (S.tree scene.now) (S.kind scene.now) (S.place scene.now) cache.now)) }
{
    let [first, rest @ ..] = terms else {
        return Err(EvalStop::Err(EvalErr::KindOf));
    };
    let first = eval_seen(alloc, &first.expr, scene, cache, matchers)?;
    let mut so_far = first.into_value()?;
    for term in rest {
        let seen = eval_seen(alloc, &term.expr, scene, cache, matchers)?;
        so_far = arithmetic(term.sign, &so_far, &seen.into_value()?)?;
    }
    Ok(so_far)
}

// Both sides, from left to right, and then how they compare.
#[cycle(eval)]
fn eval_comparison<'p, S: Scene>(
    alloc: Global,
    sides: &'p PlannedCompare,
    scene: &S,
    cache: &Cache,
    matchers: &mut KeptMatchers<'p>,
) -> Result<bool, EvalStop>
    requires { S.stands scene.now }
    ensures { Answers result (spec.comparison log_trees sides.now
        (stage (S.tree scene.now) (S.kind scene.now) (S.place scene.now) cache.now)) }
{
    let left = eval_seen(alloc, sides.left.get(), scene, cache, matchers)?;
    let right = eval_seen(alloc, sides.right.get(), scene, cache, matchers)?;
    compared_where_seen(sides.sign, &left, &right)
}

// A call of a converter: most have one value, for which no list is made.
#[cycle(eval)]
fn eval_conversion<'p, S: Scene>(
    alloc: Global,
    call: &'p Conversion,
    scene: &S,
    cache: &Cache,
    matchers: &mut KeptMatchers<'p>,
) -> Result<Value, EvalStop>
    requires { S.stands scene.now }
    ensures { Answers result (spec.conversion_value log_trees call.now
        (stage (S.tree scene.now) (S.kind scene.now) (S.place scene.now) cache.now)) }
{
    if let [only] = call.arguments.values.as_slice() {
        let seen = eval_seen(alloc, only, scene, cache, matchers)?;
        return convert_where_seen(alloc, matchers, call, seen);
    }
    let literals = call.arguments.literals.as_slice();
    let exprs = call.arguments.values.as_slice();
    let values = eval_each(alloc, exprs, scene, cache, matchers)?;
    convert(alloc, matchers, call.converter, values.as_slice(), literals)
}

// A value that is lent is converted where it stands.
fn convert_where_seen<'p>(
    alloc: Global,
    matchers: &mut KeptMatchers<'p>,
    call: &'p Conversion,
    only: Seen<'_>,
) -> Result<Value, EvalStop>
    ensures { Answers result
        (of_one call.now.converter (seen only.entry) call.now.arguments.literals) }
{
    let literals = call.arguments.literals.as_slice();
    match only {
        Seen::Lent(value) => convert_one(alloc, matchers, call.converter, value, literals),
        seen => {
            let value = seen.into_value()?;
            convert_one(alloc, matchers, call.converter, &value, literals)
        }
    }
}

// The truth that a condition is worth.
fn truth_in(value: &Seen<'_>) -> Result<bool, EvalStop>
    ensures { Answers result (truth_in (seen value.now)) }
{
    match value {
        Seen::Lent(Value::Truth(truth)) => Ok(*truth),
        Seen::Made(Value::Truth(truth)) => Ok(*truth),
        _ => Err(EvalStop::Err(EvalErr::KindOf)),
    }
}

// Whether all hold; the first that doesn't ends it.
#[cycle(eval)]
fn eval_all<'p, S: Scene>(
    alloc: Global,
    exprs: &'p [PlannedExpr],
    scene: &S,
    cache: &Cache,
    matchers: &mut KeptMatchers<'p>,
) -> Result<bool, EvalStop>
    requires { S.stands scene.now }
    ensures { Answers result (all_hold (map (spec.value log_trees) exprs.now)
        (stage (S.tree scene.now) (S.kind scene.now) (S.place scene.now) cache.now)) }
{
    for expr in exprs {
        let seen = eval_seen(alloc, expr, scene, cache, matchers)?;
        if !truth_in(&seen)? {
            return Ok(false);
        }
    }
    Ok(true)
}

// Whether one holds; the first that does ends it.
#[cycle(eval)]
fn eval_any<'p, S: Scene>(
    alloc: Global,
    exprs: &'p [PlannedExpr],
    scene: &S,
    cache: &Cache,
    matchers: &mut KeptMatchers<'p>,
) -> Result<bool, EvalStop>
    requires { S.stands scene.now }
    ensures { Answers result (any_holds (map (spec.value log_trees) exprs.now)
        (stage (S.tree scene.now) (S.kind scene.now) (S.place scene.now) cache.now)) }
{
    for expr in exprs {
        let seen = eval_seen(alloc, expr, scene, cache, matchers)?;
        if truth_in(&seen)? {
            return Ok(true);
        }
    }
    Ok(false)
}

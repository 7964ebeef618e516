//! Running statements.

ghost use Rattle.std.specs.Prelude.{◌≡◌};
ghost use Rattle.pdata_value.specs.Answers.{Answers};
ghost use Rattle.pdata_tree.specs.Operations.{log_trees};
ghost use Rattle.pdata_tree.specs.Seen.{Sees, seen};
ghost use Rattle.ottl_eval.specs.Editing.{edited};
ghost use Rattle.ottl_eval.specs.Stages.{stage};
ghost use Rattle.ottl_eval.specs.Statements as spec;
ghost use Rattle.ottl_eval.specs.Statements.{OutcomeCounts, Runs};
ghost use Rattle.ottl_eval.specs.Values.{holds, value};

use crate::cache::Cache;
use crate::editing::edited;
use crate::matchers::KeptMatchers;
use crate::outcome::{Outcome, stopped};
use crate::paths::{look_path, write_path};
use crate::values::{eval_each, eval_truth, eval_with};
use func_text::Matchers;
use ottl_plan::{Edit, Editor, PlannedCondition, PlannedExpr, PlannedStatement};
use pdata_tree::{PathTo, Scene, Seen};
use pdata_value::{EvalStop, Value};
use std::alloc::Global;

/// The value of an expression.
pub fn eval<S: Scene>(
    alloc: Global,
    scene: &S,
    cache: &Cache,
    expr: &PlannedExpr,
) -> Result<Value, EvalStop>
    requires { S.stands scene.now }
    ensures { Answers result (value log_trees expr.now
        (stage (S.tree scene.now) (S.kind scene.now) (S.place scene.now) cache.now)) }
{
    let mut matchers = Matchers::new(alloc);
    eval_with(alloc, scene, cache, &mut matchers, expr)
}

/// Whether a condition holds.
pub fn holds<S: Scene>(
    alloc: Global,
    scene: &S,
    cache: &Cache,
    condition: &PlannedCondition,
) -> Result<bool, EvalStop>
    requires { S.stands scene.now }
    ensures { Answers result (holds log_trees condition.now.expr
        (stage (S.tree scene.now) (S.kind scene.now) (S.place scene.now) cache.now)) }
{
    let mut matchers = Matchers::new(alloc);
    holds_with(alloc, scene, cache, &mut matchers, condition)
}

/// As `holds`, with matchers that the caller keeps.
pub fn holds_with<'p, S: Scene>(
    alloc: Global,
    scene: &S,
    cache: &Cache,
    matchers: &mut KeptMatchers<'p>,
    condition: &'p PlannedCondition,
) -> Result<bool, EvalStop>
    requires { S.stands scene.now }
    ensures { Answers result (holds log_trees condition.now.expr
        (stage (S.tree scene.now) (S.kind scene.now) (S.place scene.now) cache.now)) }
{
    eval_truth(alloc, scene, cache, matchers, &condition.expr)
}

/// Runs a statement. After Skipped, Err and NoMemory the tree and the cache are as before.
pub fn run_statement<S: Scene>(
    alloc: Global,
    scene: &mut S,
    cache: &mut Cache,
    statement: &PlannedStatement,
) -> Outcome
    requires { S.stands scene.old }
    ensures value { Runs
        (spec.ran log_trees statement.now
        (stage (S.tree scene.old) (S.kind scene.old) (S.place scene.old) cache.old))
        (stage (S.tree scene.old) (S.kind scene.old) (S.place scene.old) cache.old)
        (stage (S.tree scene.new) (S.kind scene.new) (S.place scene.new) cache.new) result }
    ensures keeps { S.keeps scene.old scene.new }
    ensures counts { OutcomeCounts
        (spec.acts_at log_trees statement.now.edit
        (stage (S.tree scene.old) (S.kind scene.old) (S.place scene.old) cache.old))
        (S.numbers scene.old) (S.numbers scene.new) result }
{
    let mut matchers = Matchers::new(alloc);
    run_statement_with(alloc, scene, cache, &mut matchers, statement)
}

/// As `run_statement`, with matchers that the caller keeps.
pub fn run_statement_with<'p, S: Scene>(
    alloc: Global,
    scene: &mut S,
    cache: &mut Cache,
    matchers: &mut KeptMatchers<'p>,
    statement: &'p PlannedStatement,
) -> Outcome
    requires { S.stands scene.old }
    ensures value { Runs
        (spec.ran log_trees statement.now
        (stage (S.tree scene.old) (S.kind scene.old) (S.place scene.old) cache.old))
        (stage (S.tree scene.old) (S.kind scene.old) (S.place scene.old) cache.old)
        (stage (S.tree scene.new) (S.kind scene.new) (S.place scene.new) cache.new) result }
    ensures keeps { S.keeps scene.old scene.new }
    ensures counts { OutcomeCounts
        (spec.acts_at log_trees statement.now.edit
        (stage (S.tree scene.old) (S.kind scene.old) (S.place scene.old) cache.old))
        (S.numbers scene.old) (S.numbers scene.new) result }
{
    match applies(alloc, scene, cache, matchers, &statement.condition) {
        Ok(true) => run_edit(alloc, scene, cache, matchers, &statement.edit),
        Ok(false) => Outcome::Skipped,
        Err(stop) => stopped(stop),
    }
}

fn applies<'p, S: Scene>(
    alloc: Global,
    scene: &S,
    cache: &Cache,
    matchers: &mut KeptMatchers<'p>,
    condition: &'p Option<PlannedCondition>,
) -> Result<bool, EvalStop>
    requires { S.stands scene.now }
    ensures { Answers result (spec.applies log_trees condition.now
        (stage (S.tree scene.now) (S.kind scene.now) (S.place scene.now) cache.now)) }
{
    match condition {
        Some(condition) => holds_with(alloc, scene, cache, matchers, condition),
        None => Ok(true),
    }
}

fn run_edit<'p, S: Scene>(
    alloc: Global,
    scene: &mut S,
    cache: &mut Cache,
    matchers: &mut KeptMatchers<'p>,
    edit: &'p Edit,
) -> Outcome
    requires { S.stands scene.old }
    ensures value { Runs
        (spec.done
        (spec.edit_leaves log_trees edit.now
        (stage (S.tree scene.old) (S.kind scene.old) (S.place scene.old) cache.old))
        (stage (S.tree scene.old) (S.kind scene.old) (S.place scene.old) cache.old))
        (stage (S.tree scene.old) (S.kind scene.old) (S.place scene.old) cache.old)
        (stage (S.tree scene.new) (S.kind scene.new) (S.place scene.new) cache.new) result }
    ensures keeps { S.keeps scene.old scene.new }
    ensures counts { OutcomeCounts
        (spec.acts_at log_trees edit.now
        (stage (S.tree scene.old) (S.kind scene.old) (S.place scene.old) cache.old))
        (S.numbers scene.old) (S.numbers scene.new) result }
{
    match new_value(alloc, scene, cache, matchers, edit) {
        Ok(Some(value)) => match write_path(alloc, scene, cache, &edit.target, value) {
            Ok(()) => Outcome::Done,
            Err(stop) => stopped(stop),
        },
        Ok(None) => Outcome::Done,
        Err(stop) => stopped(stop),
    }
}

// The new value of an edit's target, or None where there is no action.
fn new_value<'p, S: Scene>(
    alloc: Global,
    scene: &S,
    cache: &Cache,
    matchers: &mut KeptMatchers<'p>,
    edit: &'p Edit,
) -> Result<Option<Value>, EvalStop>
    requires { S.stands scene.now }
    ensures { Answers result (spec.new_value log_trees edit.now
        (stage (S.tree scene.now) (S.kind scene.now) (S.place scene.now) cache.now)) }
{
    let old = old_value(scene, cache, edit.editor, &edit.target)?;
    let exprs = edit.arguments.values.as_slice();
    let values = eval_each(alloc, exprs, scene, cache, matchers)?;
    edited_where_seen(alloc, matchers, edit, old, values.as_slice())
}

// A value that is lent is judged where it stands.
fn edited_where_seen<'p>(
    alloc: Global,
    matchers: &mut KeptMatchers<'p>,
    edit: &'p Edit,
    old: Seen<'_>,
    values: &[Value],
) -> Result<Option<Value>, EvalStop>
    ensures { Answers result
        (edited edit.now.editor (seen old.entry) values.now edit.now.arguments.literals) }
{
    let literals = edit.arguments.literals.as_slice();
    match old {
        Seen::Lent(old) => edited(alloc, matchers, edit.editor, old, values, literals),
        seen => {
            let old = seen.into_value()?;
            edited(alloc, matchers, edit.editor, &old, values, literals)
        }
    }
}

// `set` doesn't read its target.
fn old_value<'s, S: Scene>(
    scene: &'s S,
    cache: &'s Cache,
    editor: Editor,
    path: &PathTo,
) -> Result<Seen<'s>, EvalStop>
    requires { S.stands scene.now }
    ensures { Sees result (spec.old_value log_trees editor path.now
        (stage (S.tree scene.now) (S.kind scene.now) (S.place scene.now) cache.now)) }
{
    match editor {
        Editor::Set => Ok(Seen::Made(Value::Empty)),
        _ => look_path(scene, cache, path),
    }
}

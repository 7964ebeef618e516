//! Parses statements and conditions.

ghost use Rattle.std.specs.Prelude.{◌≡◌, ◌<◌, ◌≤◌, length, OnOk};
ghost use Rattle.contract_words.specs.Gives.{Gives};
ghost use Rattle.ottl_lex.specs.Names.{fault_of};
ghost use Rattle.ottl_parse.specs.Parsing as spec;
ghost use Rattle.ottl_parse.specs.Parsing.{statement_of, condition_of};

use crate::check::{check_condition, check_statement};
use crate::cursor::Cursor;
use crate::expr::Call;
use crate::reader::{call_of, or_of};
use crate::statement::{Condition, Statement};
use ottl_lex::{MAX_TEXT, SyntaxKind, SyntaxStop, codes, lex};
use pdata_value::Text;
use std::alloc::Global;

// How many constructs may be open at once: parentheses, those of calls included, brackets, braces
// and `not`.
const MAX_OPEN: u32 = 64;

/// The statement that the text spells.
#[tactic(auto, unfolding(crate::specs::Parsing::statement_of))]
pub fn parse_statement(alloc: Global, text: &str) -> Result<Statement, SyntaxStop>
    requires { length text.now ≤ MAX_TEXT }
    ensures { Gives (λ statement. statement) fault_of result (statement_of text.now) }
{
    let tokens = lex(alloc, text)?;
    let mut cursor = Cursor::new(text, tokens.as_slice());
    let statement = statement(alloc, &mut cursor)?;
    cursor.end()?;
    check_statement(&statement)?;
    Ok(statement)
}

/// The condition that the text spells.
#[tactic(auto, unfolding(crate::specs::Parsing::condition_of))]
pub fn parse_condition(alloc: Global, text: &str) -> Result<Condition, SyntaxStop>
    requires { length text.now ≤ MAX_TEXT }
    ensures { Gives (λ condition. condition) fault_of result (condition_of text.now) }
{
    let tokens = lex(alloc, text)?;
    let mut cursor = Cursor::new(text, tokens.as_slice());
    let condition = condition(alloc, &mut cursor)?;
    cursor.end()?;
    check_condition(&condition)?;
    Ok(condition)
}

// A call, and a condition behind `where`.
#[tactic(auto, unfolding(crate::specs::Parsing::statement))]
fn statement(alloc: Global, cursor: &mut Cursor<'_>) -> Result<Statement, SyntaxStop>
    ensures gives { Gives (λ statement. (statement, cursor.new)) fault_of result
        (spec.statement cursor.old) }
{
    let call = call(alloc, cursor)?;
    if cursor.peek() != codes::WHERE {
        return Ok(Statement {
            call,
            condition: None,
        });
    }
    cursor.step();
    let condition = condition(alloc, cursor)?;
    Ok(Statement {
        call,
        condition: Some(condition),
    })
}

// A name, and a call of it.
#[tactic(auto, unfolding(crate::specs::Parsing::call))]
fn call(alloc: Global, cursor: &mut Cursor<'_>) -> Result<Call, SyntaxStop>
    ensures gives { Gives (λ call. (call, cursor.new)) fault_of result (spec.call cursor.old) }
{
    let at = cursor.at();
    if cursor.peek() != codes::LOWER && cursor.peek() != codes::UPPER {
        return Err(SyntaxStop::Fault(cursor.fault(SyntaxKind::Unexpected)));
    }
    let name = Text::from_str(alloc, cursor.name())?;
    cursor.step();
    if cursor.peek() != b'(' {
        return Err(SyntaxStop::Fault(cursor.fault(SyntaxKind::Unexpected)));
    }
    call_of(alloc, cursor, MAX_OPEN, at, name)
}

fn condition(alloc: Global, cursor: &mut Cursor<'_>) -> Result<Condition, SyntaxStop>
    ensures gives { Gives (λ condition. (condition, cursor.new)) fault_of result
        (spec.condition cursor.old) }
{
    let expr = or_of(alloc, cursor, MAX_OPEN)?;
    Ok(Condition { expr })
}

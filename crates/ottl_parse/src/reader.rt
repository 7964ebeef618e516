//! Reads expressions from tokens by recursive descent.

ghost use Rattle.std.specs.Prelude.{◌≡◌, ◌<◌, ◌≤◌, ◌==◌, [], ◌∷◌, length, OnOk};
ghost use Rattle.contract_words.specs.Gives.{Gives};
ghost use Rattle.ottl_lex.specs.Names.{fault_of};
ghost use Rattle.ottl_parse.specs.Place.{head};
ghost use Rattle.ottl_parse.specs.Reading as spec;
ghost use Rattle.ottl_parse.specs.Reading.{inside_of, pieces, further_name, with_front, path_behind, call_behind, within, part, primary, product, sum, comparison, negation, conjunction, disjunction, product_sign, sum_sign, comparison_sign, is_product_sign, is_sum_sign};

use crate::cursor::Cursor;
use crate::expr::{Call, Compare, Expr, ExprKind, Exprs, MapPart, MapParts, Term};
use crate::literal::{index, literal, name, text};
use crate::path::{Names, Path, PathKey, PathKeys};
use crate::sign::Sign;
use item_list::ItemList;
use ottl_lex::{SyntaxStop, codes};
use pdata_value::Text;
use sqlite_items::Boxed;
use std::alloc::Global;

/// An expression, in which so many more constructs may be open.
#[cycle(read)]
#[tactic(auto, unfolding(crate::specs::Reading::disjunction))]
pub(crate) fn or_of(alloc: Global, cursor: &mut Cursor<'_>, room: u32) -> Result<Expr, SyntaxStop>
    ensures gives { Gives (λ expr. (expr, cursor.new)) fault_of result
        (disjunction (inside_of room) cursor.old) }
    ensures shorter { OnOk result (length cursor.new.left < length cursor.old.left) }
{
    let at = cursor.at();
    let first = and_of(alloc, cursor, room)?;
    if cursor.peek() != codes::OR {
        return Ok(first);
    }
    let mut operands = ItemList::new(alloc);
    operands.push(first)?;
    'operands: while cursor.peek() == codes::OR {
        cursor.step();
        operands.push(and_of(alloc, cursor, room)?)?;
    }
    Ok(Expr {
        at,
        kind: ExprKind::Or(operands),
    })
}

#[cycle(read)]
#[tactic(auto, unfolding(crate::specs::Reading::conjunction))]
fn and_of(alloc: Global, cursor: &mut Cursor<'_>, room: u32) -> Result<Expr, SyntaxStop>
    ensures gives { Gives (λ expr. (expr, cursor.new)) fault_of result
        (conjunction (inside_of room) cursor.old) }
    ensures shorter { OnOk result (length cursor.new.left < length cursor.old.left) }
{
    let at = cursor.at();
    let first = not_of(alloc, cursor, room)?;
    if cursor.peek() != codes::AND {
        return Ok(first);
    }
    let mut operands = ItemList::new(alloc);
    operands.push(first)?;
    'operands: while cursor.peek() == codes::AND {
        cursor.step();
        operands.push(not_of(alloc, cursor, room)?)?;
    }
    Ok(Expr {
        at,
        kind: ExprKind::And(operands),
    })
}

#[cycle(read)]
#[tactic(auto, unfolding(crate::specs::Reading::negation))]
fn not_of(alloc: Global, cursor: &mut Cursor<'_>, room: u32) -> Result<Expr, SyntaxStop>
    ensures gives { Gives (λ expr. (expr, cursor.new)) fault_of result
        (negation (inside_of room) cursor.old) }
    ensures shorter { OnOk result (length cursor.new.left < length cursor.old.left) }
{
    if cursor.peek() != codes::NOT {
        return comparison_of(alloc, cursor, room);
    }
    let at = cursor.at();
    let inside = cursor.open_one(room)?;
    let operand = not_of(alloc, cursor, inside)?;
    Ok(Expr {
        at,
        kind: ExprKind::Not(Boxed::new(alloc, operand)?),
    })
}

fn comparison_sign(code: u8) -> Option<Sign>
    ensures { result ≡ comparison_sign code }
{
    if code == codes::EQUAL {
        Some(Sign::Equal)
    } else if code == codes::UNEQUAL {
        Some(Sign::Unequal)
    } else if code == b'<' {
        Some(Sign::Less)
    } else if code == codes::AT_MOST {
        Some(Sign::AtMost)
    } else if code == b'>' {
        Some(Sign::Greater)
    } else if code == codes::AT_LEAST {
        Some(Sign::AtLeast)
    } else {
        None
    }
}

#[cycle(read)]
#[tactic(auto, unfolding(crate::specs::Reading::comparison))]
fn comparison_of(alloc: Global, cursor: &mut Cursor<'_>, room: u32) -> Result<Expr, SyntaxStop>
    ensures gives { Gives (λ expr. (expr, cursor.new)) fault_of result
        (comparison (inside_of room) cursor.old) }
    ensures shorter { OnOk result (length cursor.new.left < length cursor.old.left) }
{
    let at = cursor.at();
    let left = sum_of(alloc, cursor, room)?;
    let Some(sign) = comparison_sign(cursor.peek()) else {
        return Ok(left);
    };
    cursor.step();
    let right = sum_of(alloc, cursor, room)?;
    let compare = Compare {
        sign,
        left: Boxed::new(alloc, left)?,
        right: Boxed::new(alloc, right)?,
    };
    Ok(Expr {
        at,
        kind: ExprKind::Compare(compare),
    })
}

fn is_sum_sign(code: u8) -> bool
    ensures { result ≡ is_sum_sign code }
{
    code == b'+' || code == b'-'
}

fn sum_sign(code: u8) -> Sign
    ensures { result ≡ sum_sign code }
{
    if code == b'+' {
        Sign::Plus
    } else {
        Sign::Minus
    }
}

#[cycle(read)]
#[tactic(auto, unfolding(crate::specs::Reading::sum))]
fn sum_of(alloc: Global, cursor: &mut Cursor<'_>, room: u32) -> Result<Expr, SyntaxStop>
    ensures gives { Gives (λ expr. (expr, cursor.new)) fault_of result
        (sum (inside_of room) cursor.old) }
    ensures shorter { OnOk result (length cursor.new.left < length cursor.old.left) }
{
    let at = cursor.at();
    let first = product_of(alloc, cursor, room)?;
    if !is_sum_sign(cursor.peek()) {
        return Ok(first);
    }
    let mut terms = ItemList::new(alloc);
    terms.push(Term {
        sign: Sign::Plus,
        expr: first,
    })?;
    'terms: while is_sum_sign(cursor.peek()) {
        let sign = sum_sign(cursor.peek());
        cursor.step();
        let expr = product_of(alloc, cursor, room)?;
        terms.push(Term { sign, expr })?;
    }
    Ok(Expr {
        at,
        kind: ExprKind::Sum(terms),
    })
}

fn is_product_sign(code: u8) -> bool
    ensures { result ≡ is_product_sign code }
{
    code == b'*' || code == b'/'
}

fn product_sign(code: u8) -> Sign
    ensures { result ≡ product_sign code }
{
    if code == b'*' {
        Sign::Times
    } else {
        Sign::Over
    }
}

#[cycle(read)]
#[tactic(auto, unfolding(crate::specs::Reading::product))]
fn product_of(alloc: Global, cursor: &mut Cursor<'_>, room: u32) -> Result<Expr, SyntaxStop>
    ensures gives { Gives (λ expr. (expr, cursor.new)) fault_of result
        (product (inside_of room) cursor.old) }
    ensures shorter { OnOk result (length cursor.new.left < length cursor.old.left) }
{
    let at = cursor.at();
    let first = primary_of(alloc, cursor, room)?;
    if !is_product_sign(cursor.peek()) {
        return Ok(first);
    }
    let mut terms = ItemList::new(alloc);
    terms.push(Term {
        sign: Sign::Times,
        expr: first,
    })?;
    'terms: while is_product_sign(cursor.peek()) {
        let sign = product_sign(cursor.peek());
        cursor.step();
        let expr = primary_of(alloc, cursor, room)?;
        terms.push(Term { sign, expr })?;
    }
    Ok(Expr {
        at,
        kind: ExprKind::Product(terms),
    })
}

#[cycle(read)]
#[tactic(auto, unfolding(crate::specs::Reading::primary))]
fn primary_of(alloc: Global, cursor: &mut Cursor<'_>, room: u32) -> Result<Expr, SyntaxStop>
    ensures gives { Gives (λ expr. (expr, cursor.new)) fault_of result
        (primary (inside_of room) cursor.old) }
    ensures shorter { OnOk result (length cursor.new.left < length cursor.old.left) }
{
    let at = cursor.at();
    let next = cursor.peek();
    if next == b'(' {
        let inside = cursor.open_one(room)?;
        let expr = or_of(alloc, cursor, inside)?;
        cursor.expect(b')')?;
        return Ok(expr);
    }
    let kind = if next == b'[' {
        ExprKind::List(exprs_of(alloc, cursor, room, b']')?)
    } else if next == b'{' {
        ExprKind::Map(parts_of(alloc, cursor, room)?)
    } else if next == codes::LOWER || next == codes::UPPER {
        named_of(alloc, cursor, room)?
    } else {
        ExprKind::Literal(literal(alloc, cursor)?)
    };
    Ok(Expr { at, kind })
}

// A call where a parenthesis follows the name, else a path or an enum.
#[cycle(read)]
#[tactic(auto, unfolding(crate::specs::Reading::named))]
fn named_of(alloc: Global, cursor: &mut Cursor<'_>, room: u32) -> Result<ExprKind, SyntaxStop>
    requires { 0 < head cursor.old }
    ensures gives { Gives (λ kind. (kind, cursor.new)) fault_of result
        (spec.named (inside_of room) cursor.old) }
    ensures shorter { OnOk result (length cursor.new.left < length cursor.old.left) }
{
    let at = cursor.at();
    let is_lower = cursor.peek() == codes::LOWER;
    let name = Text::from_str(alloc, cursor.name())?;
    cursor.step();
    if cursor.peek() == b'(' {
        Ok(ExprKind::Call(call_of(alloc, cursor, room, at, name)?))
    } else if is_lower {
        Ok(ExprKind::Path(path_of(alloc, cursor, room, name)?))
    } else {
        Ok(ExprKind::Enum(name))
    }
}

/// The call of a name behind which the cursor stands at the parenthesis.
#[cycle(read)]
pub(crate) fn call_of(
    alloc: Global,
    cursor: &mut Cursor<'_>,
    room: u32,
    at: u32,
    name: Text,
) -> Result<Call, SyntaxStop>
    requires { 0 < head cursor.old }
    ensures gives { Gives (λ call. (call, cursor.new)) fault_of result
        (call_behind (inside_of room) at name cursor.old) }
    ensures shorter { OnOk result (length cursor.new.left < length cursor.old.left) }
{
    let arguments = exprs_of(alloc, cursor, room, b')')?;
    Ok(Call {
        at,
        name,
        arguments,
    })
}

// Expressions with commas between them, and the tokens round them.
#[cycle(read)]
#[tactic(auto, unfolding(crate::specs::Reading::sequence))]
fn exprs_of(
    alloc: Global,
    cursor: &mut Cursor<'_>,
    room: u32,
    close: u8,
) -> Result<Exprs, SyntaxStop>
    requires opens { 0 < head cursor.old }
    requires closes { 0 < close }
    ensures gives { Gives (λ exprs. (exprs, cursor.new)) fault_of result
        (within (inside_of room) (inside_of room).expr close cursor.old) }
    ensures shorter { OnOk result (length cursor.new.left < length cursor.old.left) }
{
    let inside = cursor.open_one(room)?;
    let mut exprs = ItemList::new(alloc);
    if cursor.peek() == close {
        cursor.step();
        return Ok(exprs);
    }
    exprs.push(or_of(alloc, cursor, inside)?)?;
    'exprs: while cursor.peek() == b',' {
        cursor.step();
        exprs.push(or_of(alloc, cursor, inside)?)?;
    }
    cursor.expect(close)?;
    Ok(exprs)
}

// The parts of a map with commas between them, and the braces.
#[cycle(read)]
#[tactic(auto, unfolding(crate::specs::Reading::sequence))]
fn parts_of(alloc: Global, cursor: &mut Cursor<'_>, room: u32) -> Result<MapParts, SyntaxStop>
    requires { 0 < head cursor.old }
    ensures gives { Gives (λ parts. (parts, cursor.new)) fault_of result
        (within (inside_of room) (part (inside_of room).expr) 125 cursor.old) }
    ensures shorter { OnOk result (length cursor.new.left < length cursor.old.left) }
{
    let inside = cursor.open_one(room)?;
    let mut parts = ItemList::new(alloc);
    if cursor.peek() == b'}' {
        cursor.step();
        return Ok(parts);
    }
    parts.push(part_of(alloc, cursor, inside)?)?;
    'parts: while cursor.peek() == b',' {
        cursor.step();
        parts.push(part_of(alloc, cursor, inside)?)?;
    }
    cursor.expect(b'}')?;
    Ok(parts)
}

#[cycle(read)]
#[tactic(auto, unfolding(crate::specs::Reading::part))]
fn part_of(alloc: Global, cursor: &mut Cursor<'_>, room: u32) -> Result<MapPart, SyntaxStop>
    ensures gives { Gives (λ part. (part, cursor.new)) fault_of result
        (part (disjunction (inside_of room)) cursor.old) }
    ensures shorter { OnOk result (length cursor.new.left < length cursor.old.left) }
{
    let key = text(alloc, cursor)?;
    cursor.expect(b':')?;
    let value = or_of(alloc, cursor, room)?;
    Ok(MapPart { key, value })
}

// Further names and then keys, behind the first name.
#[tactic(auto, unfolding(crate::specs::Reading::path_behind))]
fn path_of(
    alloc: Global,
    cursor: &mut Cursor<'_>,
    room: u32,
    first: Text,
) -> Result<Path, SyntaxStop>
    ensures gives { Gives (λ path. (path, cursor.new)) fault_of result
        (path_behind (inside_of room) first cursor.old) }
    ensures no_longer { OnOk result (length cursor.new.left ≤ length cursor.old.left) }
{
    let names = names_of(alloc, cursor, first)?;
    let keys = keys_of(alloc, cursor, room)?;
    Ok(Path { names, keys })
}

fn names_of(alloc: Global, cursor: &mut Cursor<'_>, first: Text) -> Result<Names, SyntaxStop>
    ensures gives { Gives (λ names. (names, cursor.new)) fault_of result
        (with_front (first ∷ [])
        (pieces (λ c. c == 46) further_name (length cursor.old.left) cursor.old)) }
    ensures no_longer { OnOk result (length cursor.new.left ≤ length cursor.old.left) }
{
    let mut names = ItemList::new(alloc);
    names.push(first)?;
    'names: while cursor.peek() == b'.' {
        cursor.step();
        names.push(name(alloc, cursor, codes::LOWER)?)?;
    }
    Ok(names)
}

fn keys_of(alloc: Global, cursor: &mut Cursor<'_>, room: u32) -> Result<PathKeys, SyntaxStop>
    ensures gives { Gives (λ keys. (keys, cursor.new)) fault_of result
        (pieces (λ c. c == 91) (spec.key (inside_of room)) (length cursor.old.left) cursor.old) }
    ensures no_longer { OnOk result (length cursor.new.left ≤ length cursor.old.left) }
{
    let mut keys = ItemList::new(alloc);
    'keys: while cursor.peek() == b'[' {
        keys.push(key_of(alloc, cursor, room)?)?;
    }
    Ok(keys)
}

// A key in its brackets.
#[tactic(auto, unfolding(crate::specs::Reading::key))]
fn key_of(alloc: Global, cursor: &mut Cursor<'_>, room: u32) -> Result<PathKey, SyntaxStop>
    requires { 0 < head cursor.old }
    ensures gives { Gives (λ key. (key, cursor.new)) fault_of result
        (spec.key (inside_of room) cursor.old) }
    ensures shorter { OnOk result (length cursor.new.left < length cursor.old.left) }
{
    cursor.open_one(room)?;
    let key = if cursor.peek() == codes::QUOTED {
        PathKey::Name(text(alloc, cursor)?)
    } else {
        PathKey::Index(index(cursor)?)
    };
    cursor.expect(b']')?;
    Ok(key)
}

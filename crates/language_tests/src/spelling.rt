// Which texts spell an expression, and how it is written.
ghost use Rattle.arm_expr.specs.Print.{HasNames};
ghost use Rattle.arm_expr.specs.View.{tree_of};

use crate::answers::Question;
use crate::table::{check, check_one, letting_go};
use arm_expr::{Expr, print, read};
use std::alloc::{AllocError, Global};
use std::test::Fail;

// Adds the text that is written for the expression.
fn say_printed(out: &mut String, alloc: Global, e: &Expr) -> Result<(), AllocError>
    requires { HasNames (tree_of e.now) }
{
    match print(alloc, e) {
        Ok(text) => out.push_str(text.as_str()),
        Err(fault) => write!(out, "{fault}"),
    }
}

/// Adds the text that is written for the expression that the text spells, or why it is not read.
pub fn say_written(out: &mut String, alloc: Global, asked: &str) -> Result<(), AllocError> {
    match read(alloc, asked) {
        Ok(e) => letting_go(say_printed(out, alloc, &e), e),
        Err(fault) => write!(out, "{fault}"),
    }
}

// Expressions as they are written.
const WRITTEN: &str = r#"['a''b']
[concat('storage', uniqueString(resourceGroup().id))]
[resourceGroup().location]
[parameters('location')]
[variables('vnet').subnets[0].name]
[concat('vm', copyIndex(1))]
[copyIndex()]
[reference(resourceId('Microsoft.Web/sites', 's'), '2022-03-01', 'Full').identity.principalId]
[reference('storage').primaryEndpoints.blob]
[json('{"a": [1, 2]}').a[1]]
[_f1()]
[true()]
['']
['''']
['[concat(]']
['größe']
[0]
[9223372036854775807]
[-9223372036854775808]
[if(equals(parameters('env'), 'prod'), variables('big'), variables('small'))]
[if(bool(parameters('a')), if(bool(parameters('b')), 1, 2), 3)]
[resourceId('Microsoft.Network/virtualNetworks/subnets', parameters('vnet'), 'default')]"#;

#[test]
fn what_is_written_is_read_and_written_again(rt: HostRuntime) -> Result<(), Fail> {
    check(rt.alloc(), Question::Written, WRITTEN)
}

const SPELLED: &str = r#"[concat('a','b')] -> [concat('a', 'b')]
[format('{0}/{1}',parameters('name'),'default')] -> [format('{0}/{1}', parameters('name'), 'default')]
[copyIndex('disks',-1)] -> [copyIndex('disks', -1)]
[first(split(parameters('id'),'/'))] -> [first(split(parameters('id'), '/'))]
[createObject('key','value')['key']] -> [createObject('key', 'value')['key']]
[createArray(1,2,3)[copyIndex()]] -> [createArray(1, 2, 3)[copyIndex()]]
[ concat ( 'a' , 'b' ) ] -> [concat('a', 'b')]
[parameters('a') . b] -> [parameters('a').b]
[parameters('a') [ 0 ] [ 'x' ]] -> [parameters('a')[0]['x']]
[null( )] -> [null()]
[-0] -> [0]
[007] -> [7]
[resourceId('N/t/u',parameters('v'),'default')] -> [resourceId('N/t/u', parameters('v'), 'default')]
[if(equals(variables('a'),'b'),1,2)] -> [if(equals(variables('a'), 'b'), 1, 2)]
[if(bool(f()),if(bool(g()),1,2),3)] -> [if(bool(f()), if(bool(g()), 1, 2), 3)]"#;

#[test]
fn other_spellings_are_read(rt: HostRuntime) -> Result<(), Fail> {
    check(rt.alloc(), Question::Written, SPELLED)
}

#[test]
fn blanks_and_newlines_may_be_between_tokens(rt: HostRuntime) -> Result<(), Fail> {
    let arguments = "[concat(\r\n  'a',\r\n\t'b'\r\n)]";
    check_one(
        rt.alloc(),
        Question::Written,
        arguments,
        "[concat('a', 'b')]",
    )?;
    let names = "[parameters('a').\n  b\n  .c]";
    check_one(
        rt.alloc(),
        Question::Written,
        names,
        "[parameters('a').b.c]",
    )
}

const NOT_SPELLED: &str = r#" -> no expression
[ -> no expression
[] -> no expression
[ ] -> no expression
concat('a') -> no expression
 [1] -> no expression
[1]  -> no expression
['a'b'] -> no expression
['a] -> no expression
[concat('a'] -> no expression
[concat('a'))] -> no expression
[concat('a',)] -> no expression
[concat(,'a')] -> no expression
[concat('a' 'b')] -> no expression
[concat] -> no expression
[parameters] -> no expression
[a.b] -> no expression
[1 2] -> no expression
[- 1] -> no expression
[+1] -> no expression
[--1] -> no expression
[1.5] -> no expression
[9223372036854775808] -> no expression
[-9223372036854775809] -> no expression
[f().] -> no expression
[f().1] -> no expression
[f()[]] -> no expression
[f()[0] -> no expression
["a"] -> no expression
[concat('a') + 'b'] -> no expression
[[concat('a')]] -> no expression
[fü()] -> no expression"#;

#[test]
fn other_texts_are_no_expressions(rt: HostRuntime) -> Result<(), Fail> {
    check(rt.alloc(), Question::Written, NOT_SPELLED)
}

// The text of an expression that is one.
fn text_in(e: &Expr) -> &str {
    match e {
        Expr::Text(text) => text.as_str(),
        _ => "no text",
    }
}

/// Adds the text that is spelled.
pub fn say_spelled(out: &mut String, alloc: Global, asked: &str) -> Result<(), AllocError> {
    match read(alloc, asked) {
        Ok(e) => letting_go(out.push_str(text_in(&e)), e),
        Err(fault) => write!(out, "{fault}"),
    }
}

#[test]
fn two_quotes_spell_one(rt: HostRuntime) -> Result<(), Fail> {
    check(rt.alloc(), Question::Spelled, "['a''b'] -> a'b")
}

// Expressions of literals, parameters, variables and functions, and of where a template is deployed.

use crate::answers::Question;
use crate::table::check;
use std::test::Fail;

const ACCESSES: &str = r#"'a''b' -> "a'b"
-7 -> -7
parameters('ON') -> true
PARAMETERS('on') -> true
variables('V') -> "var"
parameters('sizes').sku -> 2
parameters('sizes').Sku -> 1
parameters('sizes').SKU -> 1
parameters('sizes')['in']['a'] -> "x"
parameters('sizes').in.b -> none
parameters('list')[0] -> 1
parameters('list')[1] -> null
parameters('list')[3] -> none
parameters('list')[-1] -> none
parameters('list')['0'] -> none
parameters('sizes')[0] -> none
parameters('gone') -> none
parameters('unlisted') -> none
parameters('soon') -> late
parameters('soon').a -> late
parameters('gone')[parameters('soon')] -> late
variables('soon') -> late
variables('gone') -> none
parameters(1) -> none
parameters('On', 'v') -> none
parameters() -> none"#;

#[test]
fn parts_are_looked_up_in_parameters_and_variables(rt: HostRuntime) -> Result<(), Fail> {
    check(rt.alloc(), Question::Expression, ACCESSES)
}

const LAZY: &str = r#"if(parameters('On'), 1, parameters('soon')) -> 1
IF(false(), parameters('soon'), 'b') -> "b"
if(parameters('soon'), 1, 2) -> late
if(1, 1, 2) -> none
if(true(), 1) -> none
and(false(), parameters('soon')) -> false
and(true(), true(), true()) -> true
and(true(), parameters('soon')) -> late
and(true(), 1) -> none
and(false(), 1) -> false
and(true()) -> none
or(true(), parameters('soon')) -> true
or(false(), false()) -> false
or(false(), 'true') -> none
or(true()) -> none
coalesce(null(), parameters('list')[1], 3, parameters('soon')) -> 3
coalesce(null(), null()) -> null
coalesce(parameters('gone'), 1) -> none
coalesce() -> none
add(parameters('gone'), parameters('soon')) -> late
add(parameters('gone'), 1) -> none
add(2, 3) -> 5
ADD(2, 3) -> 5
add(2) -> none
nope(parameters('soon')) -> late
nope(1) -> none
concat('a', string(1), variables('v')) -> "a1var""#;

#[test]
fn functions_look_only_as_far_as_their_value_needs(rt: HostRuntime) -> Result<(), Fail> {
    check(rt.alloc(), Question::Expression, LAZY)
}

const INDICES: &str = r#"copyIndex() -> 5
copyIndex(1) -> 6
copyIndex(-6) -> -1
copyIndex('DISKS') -> 2
copyIndex('disks', 10) -> 12
copyIndex('vms') -> 5
copyIndex('nowhere') -> none
copyIndex(9223372036854775807) -> none
copyIndex(1, 'disks') -> none
copyIndex('vms', 1, 1) -> none"#;

#[test]
fn copy_index_is_that_of_the_named_or_the_main_loop(rt: HostRuntime) -> Result<(), Fail> {
    check(rt.alloc(), Question::Expression, INDICES)
}

const PLACES: &str = r#"resourceGroup().id -> "/subscriptions/S1/resourceGroups/g"
resourceGroup().location -> "westeurope"
resourceGroup().name -> "g"
resourceGroup().properties.provisioningState -> "Succeeded"
resourceGroup().tags -> {}
resourceGroup().type -> "Microsoft.Resources/resourceGroups"
resourceGroup(1) -> none
subscription() -> {"id":"/subscriptions/S1","subscriptionId":"S1"}
deployment() -> {"name":"first"}"#;

#[test]
fn a_template_sees_where_it_is_deployed(rt: HostRuntime) -> Result<(), Fail> {
    check(rt.alloc(), Question::Expression, PLACES)
}

const IDS: &str = r#"resourceId('N/t', 'x') -> "/subscriptions/S1/resourceGroups/g/providers/N/t/x"
resourceId('G2', 'N/t/u', 'x', 'y') -> "/subscriptions/S1/resourceGroups/G2/providers/N/t/x/u/y"
resourceId('s2', 'G2', 'N/t', 'x') -> "/subscriptions/s2/resourceGroups/G2/providers/N/t/x"
resourceId('a', 'b', 'c', 'N/t', 'x') -> none
resourceId('N/t/u', 'x') -> none
resourceId('N/t', 'x', 'y') -> none
resourceId('N/t', '') -> none
resourceId('N/t', 'x/y') -> none
resourceId('N//t', 'x', 'y') -> none
resourceId('', 'N/t', 'x') -> none
resourceId('x') -> none
resourceId('N/t', 1) -> none
subscriptionResourceId('N/t', 'x') -> "/subscriptions/S1/providers/N/t/x"
subscriptionResourceId('s2', 'N/t', 'x') -> "/subscriptions/s2/providers/N/t/x"
subscriptionResourceId('s2', 'g', 'N/t', 'x') -> none
resourceId('s2', 'G2', 'N/t/u', 'x', 'y') -> "/subscriptions/s2/resourceGroups/G2/providers/N/t/x/u/y""#;

#[test]
fn ids_are_made_of_a_place_types_and_names(rt: HostRuntime) -> Result<(), Fail> {
    check(rt.alloc(), Question::Expression, IDS)
}

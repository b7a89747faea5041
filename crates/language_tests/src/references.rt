// Expressions that look at states of resources and at outputs of nested deployments.

use crate::answers::Question;
use crate::table::check;
use std::test::Fail;

const STATES: &str = r#"reference('st1').p.q[0] -> 7
reference('A/B/ST1', '2024-01-01').p -> {"q":[7]}
reference(resourceId('A/b', 'st1')).p.q -> [7]
reference('st1', 'x', 'full').tier -> "hot"
reference('st1', 'x', 'Fully') -> none
reference('st1').tier -> none
reference('soon').p -> needs /subscriptions/s1/resourcegroups/g/providers/a/b/soon
length(reference('A/b/soon', 'x', 'Full')) -> needs /subscriptions/s1/resourcegroups/g/providers/a/b/soon
reference(resourceId('A/b', 'never')) -> none
reference(resourceId('A/b', 'unlisted')) -> none
reference('twin') -> none
reference('nobody') -> none
reference(1) -> none"#;

#[test]
fn references_give_states_by_name_and_by_id(rt: HostRuntime) -> Result<(), Fail> {
    check(rt.alloc(), Question::Expression, STATES)
}

const OUTPUTS: &str = r#"reference('whole').outputs.x.value -> "hello"
reference('whole').Outputs['y'].Value -> 5
reference('whole').outputs.x.type -> "string"
reference('whole').outputs.x -> {"type":"string","value":"hello"}
reference('whole').outputs.none -> none
reference('whole').else -> none
length(reference('whole', 'x', 'Full').outputs) -> 2
reference('half').outputs.a.value -> 1
reference('half').outputs[concat('a')].value -> 1
reference('half').outputs.z.value -> late
reference('half').outputs.a.type -> late
reference('half').outputs.a -> late
reference('half').outputs -> late
reference('half') -> late
reference('half').outputs.c.value -> none
reference('half').outputs['c']['VALUE'] -> none
reference('half').outputs.c.type -> late
reference('half').outputs.c -> late
string(reference('half').outputs.c) -> late
reference('half').outputs.c[parameters('gone')] -> late
reference('half')[parameters('gone')] -> late
reference('lost').outputs.a.value -> 1
reference('lost').outputs.b.value -> none
reference('whole').outputs.c.value -> none
reference('whole').outputs.c.type -> none
reference('whole').outputs.c -> none
reference('lost').outputs.a.type -> none
reference('lost') -> none
reference(resourceId('Microsoft.Resources/deployments', 'WHOLE')).outputs.y.value -> 5"#;

#[test]
fn references_to_nested_deployments_look_at_outputs(rt: HostRuntime) -> Result<(), Fail> {
    check(rt.alloc(), Question::Expression, OUTPUTS)
}

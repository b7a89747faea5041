// What `@description` and `@metadata` become outside of parameters.

use crate::rows::check_rows;
use std::test::Fail;

const ROWS: &str = r#"@description('One.')
@metadata({ description: 'Lost.', a: null })
output a int = 1
=> {§,"outputs":{"a":{"metadata":{"a":null,"description":"One."},"type":"int","value":1}},"resources":[]}

@description('One.')
resource a 'Demo.Lab/things@1' = {
  name: 'a'
  @description('Two.')
  resource b 'parts' = {
    name: 'b'
  }
}
=> {§,"resources":[{"apiVersion":"1","metadata":{"description":"One."},"name":"a","type":"Demo.Lab/things"},
{"apiVersion":"1","dependsOn":["[resourceId('Demo.Lab/things', 'a')]"],"metadata":{"description":"Two."},
"name":"[format('{0}/{1}', 'a', 'b')]","type":"Demo.Lab/things/parts"}]}

@description('One.')
module m 'm.bicep' = {
}
--- m.bicep
=> {§,"resources":[{"apiVersion":"2022-09-01","metadata":{"description":"One."},"name":"m","properties":{
"expressionEvaluationOptions":{"scope":"inner"},"mode":"Incremental","template":{§,"resources":[]}},
"type":"Microsoft.Resources/deployments"}]}"#;

#[test]
fn descriptions_and_metadata(rt: HostRuntime) -> Result<(), Fail> {
    check_rows(rt.alloc(), ROWS)
}

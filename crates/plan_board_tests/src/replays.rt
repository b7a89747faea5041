// Deployments that go on after recorded answers.

use crate::rows::check;
use std::rt::HostRuntime;
use std::test::Fail;

const FOLLOWING: &str = r#"{§,"resources":[{¤,"name":"a","properties":{"x":1}},
{¤,"name":"b","properties":{"y":"[reference(resourceId('a.b/c','a')).x]"}}]}
<- 1 {"properties":{"x":1}}
> begin 2 0 @/a.b/c/b {"properties":{"y":1}}
> stored 2
> Succeeded first

{§,"resources":[{¤,"name":"a","properties":{"x":1}},
{¤,"name":"b","properties":{"y":"[reference(resourceId('a.b/c','a')).x]"}}]}
<- 1 {"properties":{"x":1}}
<- 2 {"properties":{"y":1}}
> Succeeded first
"#;

const NOT_FOLLOWING: &str = r#"{§,"resources":[{¤,"name":"a"},{¤,"name":"b","dependsOn":["a"]}]}
<- 2 {}
> bad answer 0

{§,"resources":[{¤,"name":"a","properties":{"x":1}},
{¤,"name":"b","properties":{"y":"[reference(resourceId('a.b/c','a')).x]"}}]}
<- 1 {"properties":{"x":2}}
> bad answer 0

{§,"resources":[{¤,"name":"a","properties":{"x":1}},
{¤,"name":"b","properties":{"y":"[reference(resourceId('a.b/c','a')).x]"}}]}
<- 1 {"properties":{"x":1}}
<- 2 {"properties":{"y":2}}
> bad answer 1
"#;

#[test]
fn a_deployment_goes_on_after_its_answers(rt: HostRuntime) -> Result<(), Fail> {
    check(rt.alloc(), FOLLOWING)
}

#[test]
fn answers_of_another_order_or_body_do_not_follow(rt: HostRuntime) -> Result<(), Fail> {
    check(rt.alloc(), NOT_FOLLOWING)
}

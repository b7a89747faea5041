// Each method of each route.
use crate::showing::check_read;
use crate::writing::bytes_of;
use std::alloc::Global;
use std::test::Fail;

/// A request with what it asks, for each method of each route.
pub(crate) const ROWS: &str = "\
GET /subscriptions/s/resourceGroups?api-version=1 HTTP/1.1|| => ListGroups s
GET /SUBSCRIPTIONS/S/RESOURCEGROUPS?api-version=1 HTTP/1.1|| => ListGroups S
PUT ~?api-version=1 HTTP/1.1|content-length: 25||{\"location\":\"westeurope\"} => PutGroup s g westeurope
PUT ~?api-version=1 HTTP/1.1|content-length: 53||{\"tags\":{\"a\":1},\"Location\":\"north\",\"location\":\"west\"} \
=> PutGroup s g west
GET /subscriptions/s/resourceGroups/x?api-version=2021-04-01 HTTP/1.1|| => GetGroup s x
DELETE /subscriptions/s/resourceGroups/my%20group?api-version=1 HTTP/1.1|| => DeleteGroup s my group
GET ~/resources?$filter=a&api-version=1 HTTP/1.1|| => ListResources s g
PUT ~@?api-version=1 HTTP/1.1|content-length: 67||{\"properties\":{\"mode\":\"Incremental\",\"template\":{\"b\":2,\
\"a\":[1, 2]}}} => Deploy s g d Incremental {\"a\":[1,2],\"b\":2} none
PUT ~@?api-version=1 HTTP/1.1|content-length: 79||{\"properties\":{\"mode\":\"COMPLETE\",\"template\":{},\
\"parameters\":{\"p\":{\"value\":1}}}} => Deploy s g d Complete {} {\"p\":{\"value\":1}}
PUT ~@?api-version=1 HTTP/1.1|content-length: 47||{\"Properties\":{\"Template\":1,\"parameters\":null}} => Deploy s \
g d Incremental 1 null
GET ~@?api-version=1 HTTP/1.1|| => GetDeployment s g d
POST ~@/resume?api-version=1 HTTP/1.1|content-length: 0|| => Resume s g d
POST ~/providers/microsoft.resources/Deployments/d/Abandon?api-version=1 HTTP/1.1|content-length: 2||{} => Abandon \
s g d
PUT /subscriptions/s^?api-version=1 HTTP/1.1|content-length: 47||{\"properties\":{\"level\":\"readonly\",\
\"notes\":\"n\"}} => PutLock subscription /subscriptions/s k ReadOnly 'n'
GET /subscriptions/s^?api-version=1 HTTP/1.1|| => GetLock subscription /subscriptions/s k
DELETE /subscriptions/s^?api-version=1 HTTP/1.1|| => DeleteLock subscription /subscriptions/s k
PUT ~^?api-version=1 HTTP/1.1|content-length: 47||{\"properties\":{\"level\":\"readonly\",\"notes\":\"n\"}} => \
PutLock group /subscriptions/s/resourceGroups/g k ReadOnly 'n'
GET ~^?api-version=1 HTTP/1.1|| => GetLock group /subscriptions/s/resourceGroups/g k
DELETE ~^?api-version=1 HTTP/1.1|| => DeleteLock group /subscriptions/s/resourceGroups/g k
PUT ~/providers/A/b/x^?api-version=1 HTTP/1.1|content-length: 47||{\"properties\":{\"level\":\"readonly\",\
\"notes\":\"n\"}} => PutLock resource /subscriptions/s/resourceGroups/g/providers/A/b/x k ReadOnly 'n'
GET ~/providers/A/b/x^?api-version=1 HTTP/1.1|| => GetLock resource \
/subscriptions/s/resourceGroups/g/providers/A/b/x k
DELETE ~/providers/A/b/x^?api-version=1 HTTP/1.1|| => DeleteLock resource \
/subscriptions/s/resourceGroups/g/providers/A/b/x k
PUT ~^?api-version=1 HTTP/1.1|content-length: 39||{\"properties\":{\"level\":\"CanNotDelete\"}} => PutLock group \
/subscriptions/s/resourceGroups/g k CanNotDelete ''
GET ~/providers/A/b/x%2Dy?api-version=1 HTTP/1.1|| => GetResource \
/subscriptions/s/resourceGroups/g/providers/A/b/x-y
DELETE ~/providers/A/b/x/c/y?api-version=1 HTTP/1.1|| => DeleteResource \
/subscriptions/s/resourceGroups/g/providers/A/b/x/c/y";

const CLOSING: &str = "\
GET /subscriptions/s/resourceGroups?api-version=1 HTTP/1.0|| => ListGroups s, close
GET /subscriptions/s/resourceGroups?api-version=1 HTTP/1.0|Connection: keep-alive|| => ListGroups s, close
GET /subscriptions/s/resourceGroups?api-version=1 HTTP/1.1|Connection: Close|| => ListGroups s, close
GET /subscriptions/s/resourceGroups?api-version=1 HTTP/1.1|connection: keep-alive|CONNECTION:  close || => \
ListGroups s, close
GET /subscriptions/s/resourceGroups?api-version=1 HTTP/1.1|connection: keep-alive|| => ListGroups s
GET /subscriptions/s/resourceGroups?api-version=1 HTTP/1.1|connection: TE, close|| => ListGroups s
GET /subscriptions/s/resourceGroups?api-version=1 HTTP/1.1|expect: 100-continue|| => ListGroups s";

// Compares what is read of a row's request with what follows the arrow.
fn check_row(alloc: Global, row: &str) -> Result<(), Fail> {
    let (request, wanted) = row.split_once(" => ").unwrap_or((row, "a wanted answer"));
    let bytes = bytes_of(alloc, request)?;
    check_read(alloc, row, (bytes.as_slice(), &[1_000], &[]), wanted)
}

/// Fails at the first row that is answered otherwise.
pub(crate) fn check_rows(alloc: Global, rows: &str) -> Result<(), Fail> {
    for row in rows.split('\n') {
        check_row(alloc, row)?;
    }
    Ok(())
}

#[test]
fn each_method_of_each_route_is_asked(rt: HostRuntime) -> Result<(), Fail> {
    check_rows(rt.alloc(), ROWS)
}

#[test]
fn the_connection_is_closed_by_version_and_field(rt: HostRuntime) -> Result<(), Fail> {
    check_rows(rt.alloc(), CLOSING)
}

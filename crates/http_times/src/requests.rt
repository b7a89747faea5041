// The requests that are timed, as bytes.

use std::alloc::{AllocError, Global};

// The requests of a mix: the start of a start line, and a body.
static MIX: [(&str, &str); 5] = [
    ("GET /subscriptions/s/resourceGroups", ""),
    (
        "PUT /subscriptions/s/resourceGroups/g",
        "{\"location\":\"westeurope\"}",
    ),
    (
        "GET /subscriptions/s/resourceGroups/g/providers/Demo.Lab/things/t%2Da",
        "",
    ),
    (
        "PUT /subscriptions/s/resourceGroups/g/providers/Microsoft.Authorization/locks/k",
        "{\"properties\":{\"level\":\"ReadOnly\",\"notes\":\"n\"}}",
    ),
    (
        "POST /subscriptions/s/resourceGroups/g/providers/Microsoft.Resources/deployments/d/resume",
        "",
    ),
];

// The start of the start line of a deployment.
const DEPLOYMENT: &str =
    "PUT /subscriptions/s/resourceGroups/g/providers/Microsoft.Resources/deployments/d";

// What a client sends with each request.
const FIELDS: &str = "\
?api-version=2021-04-01 HTTP/1.1\r\n\
Host: 127.0.0.1:8080\r\n\
User-Agent: azsdk-python-azure-mgmt-resource/23.0.1 Python/3.11.4 (Linux-6.2.0-x86_64)\r\n\
Accept-Encoding: gzip, deflate\r\n\
Accept: application/json\r\n\
Connection: keep-alive\r\n\
Content-Type: application/json\r\n\
x-ms-client-request-id: 8a6f0c9e-2c0a-11ee-be56-0242ac120002\r\n";

// A resource of a template.
const RESOURCE: &str = "\
{\"type\":\"Demo.Lab/things\",\"apiVersion\":\"2024-01-01\",\"name\":\"thing\",\"location\":\"west\",\
\"tags\":{\"a\":\"1\",\"b\":\"2\"},\"properties\":{\"size\":17,\"on\":true,\"parts\":[\"x\",\"y\"]}}";

// How many resources there are.
const RESOURCES: u32 = 64;

// Adds one request.
fn add(bytes: &mut String, start: &str, body: &str) -> Result<(), AllocError> {
    let length = body.len();
    bytes.push_str(start)?;
    bytes.push_str(FIELDS)?;
    write!(bytes, "Content-Length: {length}\r\n\r\n{body}")
}

/// The mix, its requests one after the other.
pub fn mix(alloc: Global) -> Result<String, AllocError> {
    let mut bytes = String::new(alloc);
    for request in &MIX {
        let (start, body) = request;
        add(&mut bytes, start, body)?;
    }
    Ok(bytes)
}

/// The resources as an object with a list.
pub fn listed(alloc: Global) -> Result<String, AllocError> {
    let mut json = String::from_str(alloc, "{\"resources\":[")?;
    for number in 0..RESOURCES {
        if number > 0 {
            json.push_str(",")?;
        }
        json.push_str(RESOURCE)?;
    }
    json.push_str("]}")?;
    Ok(json)
}

// The body of the deployment.
fn body(alloc: Global) -> Result<String, AllocError> {
    let template = listed(alloc)?;
    let mut body = String::from_str(alloc, "{\"properties\":{\"template\":")?;
    body.push_str(template.as_str())?;
    body.push_str("}}")?;
    Ok(body)
}

/// The deployment.
pub fn deployment(alloc: Global) -> Result<String, AllocError> {
    let body = body(alloc)?;
    let mut bytes = String::new(alloc);
    add(&mut bytes, DEPLOYMENT, body.as_str())?;
    Ok(bytes)
}

// Type texts of resources.

use crate::rows::{Question, check};
use std::test::Fail;

const ROWS: &str = "resource a 'T/x@1' = { name: 'a' }
---
resource a 'T/x/y@1' = [for x in []: { name: 'a' }]
---
resource a 'T/x@1@2' existing = { name: 'a' }
---
resource a 'Microsoft.Resources/deployments/x@1' = { name: 'a' }
---
resource a ^'Microsoft.Resources/deployments@1' = { name: 'a' }
---
resource a ^'microsoft.resources/Deployments@1' = { name: 'a' }
---
resource a ^'T' = { name: 'a' }
---
resource a ^'T@1' = { name: 'a' }
---
resource a ^'T/x' = { name: 'a' }
---
resource a ^'T/x@' = { name: 'a' }
---
resource a ^'T//x@1' = { name: 'a' }
---
resource a ^'/x@1' = { name: 'a' }
---
resource a ^'T/x/@1' = { name: 'a' }
---
resource a ^'@1' = { name: 'a' }
---
resource a ^'' = { name: 'a' }
---
resource a 'T/x@1' = {
  name: 'a'
  resource b 'y' = {
    name: 'b'
    resource c 'y@2' = {
      name: 'c'
    }
  }
}
---
resource a 'T/x@1' = {
  name: 'a'
  resource b ^'y@' = {
    name: 'b'
  }
}
---
resource a 'T/x@1' = {
  name: 'a'
  resource b ^'y/z' = {
    name: 'b'
  }
}
---
resource a 'T/x@1' = {
  name: 'a'
  resource b 'y' = {
    name: 'b'
    resource c ^'T/x/y/z@1' = {
      name: 'c'
    }
  }
}
---
resource a 'T/x@1' = if (true) {
  name: 'a'
  resource b ^'' = {
    name: 'b'
  }
}
---
resource a 'T/x@1' = {
  name: 'a'
  resource b ^'@1' = {
    name: 'b'
  }
}
";

#[test]
fn type_texts_have_segments_and_versions(rt: HostRuntime) -> Result<(), Fail> {
    check(rt.alloc(), Question::TypeText, ROWS)
}

// Why a request is refused: the codes of Azure Resource Manager, with their statuses and messages.

ghost use Rattle.std.specs.Prelude.{◌≡◌, chars};
ghost use Rattle.http_replies.specs.Codes.{name_of, status_of, message_of};

use arm_value::Text;

/// Why a request is refused. Where a variant has a text, it is the message.
#[derive(Drop)]
pub enum Code {
    /// The bytes are no request, or its body has not the form that is stated for it.
    BadRequest,
    /// The head of the request does not end within its limit, or has too many headers.
    HeadTooLarge,
    /// The length of the request's body is not given.
    LengthRequired,
    /// The request's body is above its limit.
    BodyTooLarge,
    /// There is no such route.
    NotFound,
    /// The route has not the method.
    MethodNotAllowed,
    /// The query has no `api-version`.
    MissingApiVersion,
    /// The template is refused.
    InvalidTemplate(Text),
    /// A name is outside its form, or a value does not suit a parameter.
    InvalidParameter(Text),
    /// The resource group is not there.
    ResourceGroupNotFound(Text),
    /// The resource or the deployment is not there.
    ResourceNotFound(Text),
    /// The lock is not there.
    LockNotFound(Text),
    /// No deployment can be resumed.
    NothingToResume(Text),
    /// A deployment is active.
    DeploymentActive(Text),
    /// A resource group of this name has another location.
    NameInUse(Text),
    /// A lock forbids it.
    ScopeLocked(Text),
    /// Resources below the one to be deleted are held.
    ChildrenHeld(Text),
}

impl Code {
    /// The code as it is sent.
    pub fn name(&self) -> &'static str
        ensures { result.now ≡ name_of self.now }
    {
        match self {
            Code::BadRequest => "BadRequest",
            Code::HeadTooLarge => "HeadTooLarge",
            Code::LengthRequired => "LengthRequired",
            Code::BodyTooLarge => "BodyTooLarge",
            Code::NotFound => "NotFound",
            Code::MethodNotAllowed => "MethodNotAllowed",
            Code::MissingApiVersion => "MissingApiVersion",
            Code::InvalidTemplate(_) => "InvalidTemplate",
            Code::InvalidParameter(_) => "InvalidParameter",
            Code::ResourceGroupNotFound(_) => "ResourceGroupNotFound",
            Code::ResourceNotFound(_) => "ResourceNotFound",
            Code::LockNotFound(_) => "LockNotFound",
            Code::NothingToResume(_) => "NothingToResume",
            Code::DeploymentActive(_) => "DeploymentActive",
            Code::NameInUse(_) => "NameInUse",
            Code::ScopeLocked(_) => "ScopeLocked",
            Code::ChildrenHeld(_) => "ChildrenHeld",
        }
    }

    /// The HTTP status of the code.
    pub fn status(&self) -> u16
        ensures { result ≡ status_of self.now }
    {
        match self {
            Code::BadRequest => 400,
            Code::HeadTooLarge => 431,
            Code::LengthRequired => 411,
            Code::BodyTooLarge => 413,
            Code::NotFound => 404,
            Code::MethodNotAllowed => 405,
            Code::MissingApiVersion => 400,
            Code::InvalidTemplate(_) => 400,
            Code::InvalidParameter(_) => 400,
            Code::ResourceGroupNotFound(_) => 404,
            Code::ResourceNotFound(_) => 404,
            Code::LockNotFound(_) => 404,
            Code::NothingToResume(_) => 409,
            Code::DeploymentActive(_) => 409,
            Code::NameInUse(_) => 409,
            Code::ScopeLocked(_) => 409,
            Code::ChildrenHeld(_) => 409,
        }
    }

    /// The message: the text of the variant, or the code itself where it has none. It takes no memory.
    pub fn message(&self) -> &str
        ensures { chars result.now ≡ message_of self.now }
    {
        match self {
            Code::InvalidTemplate(message) => message.as_str(),
            Code::InvalidParameter(message) => message.as_str(),
            Code::ResourceGroupNotFound(message) => message.as_str(),
            Code::ResourceNotFound(message) => message.as_str(),
            Code::LockNotFound(message) => message.as_str(),
            Code::NothingToResume(message) => message.as_str(),
            Code::DeploymentActive(message) => message.as_str(),
            Code::NameInUse(message) => message.as_str(),
            Code::ScopeLocked(message) => message.as_str(),
            Code::ChildrenHeld(message) => message.as_str(),
            Code::BadRequest => "BadRequest",
            Code::HeadTooLarge => "HeadTooLarge",
            Code::LengthRequired => "LengthRequired",
            Code::BodyTooLarge => "BodyTooLarge",
            Code::NotFound => "NotFound",
            Code::MethodNotAllowed => "MethodNotAllowed",
            Code::MissingApiVersion => "MissingApiVersion",
        }
    }
}

//! The methods of requests.

ghost use Rattle.std.specs.Prelude.{◌≡◌};
ghost use Rattle.std.specs.Str.{bytes_eq};
ghost use Rattle.vc_http_routes.specs.Methods as methods;

/// A method that some route has.
#[derive(Clone, Copy, Debug)]
pub enum Method {
    Get,
    Post,
    Put,
    Delete,
}

/// The methods that a route has.
#[derive(Clone, Copy, Debug)]
pub enum Allow {
    Nothing,
    Get,
    Post,
    Delete,
    GetDelete,
    PutPostDelete,
}

impl Method {
    /// How it is written.
    pub fn text(self) -> &'static str
        ensures { result.now ≡ methods.method_text self }
    {
        match self {
            Method::Get => "GET",
            Method::Post => "POST",
            Method::Put => "PUT",
            Method::Delete => "DELETE",
        }
    }
}

fn is_method(name: &[u8], method: Method) -> bool
    ensures { result ≡ bytes_eq name.now (methods.method_text method) }
{
    name == method.text().as_bytes()
}

/// The method of this name, if it is one of the four.
pub fn method_of(name: &[u8]) -> Option<Method>
    ensures { result ≡ methods.method_of name.now }
{
    if is_method(name, Method::Get) {
        Some(Method::Get)
    } else if is_method(name, Method::Post) {
        Some(Method::Post)
    } else if is_method(name, Method::Put) {
        Some(Method::Put)
    } else if is_method(name, Method::Delete) {
        Some(Method::Delete)
    } else {
        None
    }
}

/// Whether the method is among those that are allowed.
pub fn allows(allow: Allow, method: Method) -> bool
    ensures { result ≡ methods.has_method (methods.methods_in allow) method }
{
    match allow {
        Allow::Nothing => false,
        Allow::Get => matches!(method, Method::Get),
        Allow::Post => matches!(method, Method::Post),
        Allow::Delete => matches!(method, Method::Delete),
        Allow::GetDelete => matches!(method, Method::Get | Method::Delete),
        Allow::PutPostDelete => !matches!(method, Method::Get),
    }
}

//! The parts of a response, by cases.

ghost use Rattle.std.specs.Prelude.{◌≡◌, length};
ghost use Rattle.std.specs.Fmt.{decimal};
ghost use Rattle.vc_http_routes.specs.Methods.{methods_in};
ghost use Rattle.vc_http_responses.specs.Responses as responses;

use vc_http_routes::Allow;

/// The status with its phrase; any other than those of responses is taken for 503.
pub fn status_text(status: u16) -> &'static str
    ensures { result.now ≡ responses.status_text status }
{
    match status {
        200 => "200 OK",
        400 => "400 Bad Request",
        404 => "404 Not Found",
        405 => "405 Method Not Allowed",
        409 => "409 Conflict",
        411 => "411 Length Required",
        413 => "413 Content Too Large",
        431 => "431 Request Header Fields Too Large",
        501 => "501 Not Implemented",
        _ => "503 Service Unavailable",
    }
}

/// The field that says which methods are allowed, where some are.
pub fn allow_field(allow: Allow) -> &'static str
    ensures { result.now ≡ responses.allow_field (methods_in allow) }
{
    match allow {
        Allow::Nothing => "",
        Allow::Get => "allow: GET\r\n",
        Allow::Post => "allow: POST\r\n",
        Allow::Delete => "allow: DELETE\r\n",
        Allow::GetDelete => "allow: GET, DELETE\r\n",
        Allow::PutPostDelete => "allow: PUT, POST, DELETE\r\n",
    }
}

/// The field that says that the connection ends, where it does.
pub fn connection_field(keep: bool) -> &'static str
    ensures { result.now ≡ responses.connection_field keep }
{
    if keep { "" } else { "connection: close\r\n" }
}

/// What a message that is refused is told.
pub fn bad_body(status: u16) -> &'static str
    ensures { result.now ≡ responses.bad_body status }
{
    if status == 503 {
        "refused 11 OutOfMemory\n"
    } else {
        "refused 0 NotARequest\n"
    }
}

/// How many bytes that is.
#[tactic(auto, using(crate::proofs::ResponseLaws::bad_length))]
pub fn bad_length(status: u16) -> &'static str
    ensures { result.now ≡ decimal (length (responses.bad_body status)) }
{
    if status == 503 { "23" } else { "22" }
}

//! The policy of the page, which names its one script by digest.

ghost use Rattle.std.specs.Prelude.{◌≡◌, IfOk, OnOk, string_bytes, ◌++◌};
ghost use Rattle.http_header.specs.FieldValue.{plain_value};
ghost use Rattle.cg_web.specs.Policy as spec;

use base64::engine::general_purpose::STANDARD;
use http::HeaderValue;
use sha2::{Digest, Sha256};
use std::alloc::{AllocError, Global};

// The policy before the digest of the script.
const BEFORE_DIGEST: &str =
    "default-src 'none'; connect-src 'self'; style-src 'unsafe-inline'; script-src 'sha256-";

// The policy after it.
const AFTER_DIGEST: &str = "'; base-uri 'none'; form-action 'none'; frame-ancestors 'none'";

// Adds the digest of a script, in base64.
#[tactic(auto, unfolding(crate::specs::Policy::digest_text))]
fn add_digest(text: &mut String, script: &str) -> Result<(), AllocError>
    ensures { OnOk result (string_bytes text.new ≡ string_bytes text.old ++ spec.digest_text script.now) }
{
    let digest = Sha256::digest(script.as_bytes());
    STANDARD.encode_string(digest.as_slice(), text)
}

// The policy of a page that runs this script alone.
#[tactic(auto, unfolding(crate::specs::Policy::policy_text))]
fn policy_text(alloc: Global, script: &str) -> Result<String, AllocError>
    ensures { IfOk result (λ text. string_bytes text ≡ spec.policy_text script.now) }
{
    let mut text = String::from_str(alloc, BEFORE_DIGEST)?;
    add_digest(&mut text, script)?;
    text.push_str(AFTER_DIGEST)?;
    Ok(text)
}

/// The value of the header `content-security-policy`: the page runs this script, has its styles, asks its own node, and
/// does nothing else.
pub(crate) fn policy(alloc: Global, script: &str) -> Result<HeaderValue, AllocError>
    ensures { IfOk result (λ value. value ≡ plain_value (spec.policy_text script.now)) }
{
    let text = policy_text(alloc, script)?;
    match HeaderValue::from_string(text) {
        Ok(value) => Ok(value),
        Err(_) => Err(AllocError),
    }
}

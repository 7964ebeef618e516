//! Names of severities.

ghost use Rattle.std.specs.Prelude.{◌≡◌};
ghost use Rattle.ottl_plan.specs.Severities as spec;

#[tactic(auto, unfolding(crate::specs::Severities::low_severity))]
fn low_severity(name: &str) -> Option<i64>
    ensures { result ≡ spec.low_severity name.now }
{
    match name {
        "SEVERITY_NUMBER_UNSPECIFIED" => Some(0),
        "SEVERITY_NUMBER_TRACE" => Some(1),
        "SEVERITY_NUMBER_TRACE2" => Some(2),
        "SEVERITY_NUMBER_TRACE3" => Some(3),
        "SEVERITY_NUMBER_TRACE4" => Some(4),
        "SEVERITY_NUMBER_DEBUG" => Some(5),
        "SEVERITY_NUMBER_DEBUG2" => Some(6),
        "SEVERITY_NUMBER_DEBUG3" => Some(7),
        "SEVERITY_NUMBER_DEBUG4" => Some(8),
        _ => None,
    }
}

#[tactic(auto, unfolding(crate::specs::Severities::middle_severity))]
fn middle_severity(name: &str) -> Option<i64>
    ensures { result ≡ spec.middle_severity name.now }
{
    match name {
        "SEVERITY_NUMBER_INFO" => Some(9),
        "SEVERITY_NUMBER_INFO2" => Some(10),
        "SEVERITY_NUMBER_INFO3" => Some(11),
        "SEVERITY_NUMBER_INFO4" => Some(12),
        "SEVERITY_NUMBER_WARN" => Some(13),
        "SEVERITY_NUMBER_WARN2" => Some(14),
        "SEVERITY_NUMBER_WARN3" => Some(15),
        "SEVERITY_NUMBER_WARN4" => Some(16),
        _ => None,
    }
}

#[tactic(auto, unfolding(crate::specs::Severities::high_severity))]
fn high_severity(name: &str) -> Option<i64>
    ensures { result ≡ spec.high_severity name.now }
{
    match name {
        "SEVERITY_NUMBER_ERROR" => Some(17),
        "SEVERITY_NUMBER_ERROR2" => Some(18),
        "SEVERITY_NUMBER_ERROR3" => Some(19),
        "SEVERITY_NUMBER_ERROR4" => Some(20),
        "SEVERITY_NUMBER_FATAL" => Some(21),
        "SEVERITY_NUMBER_FATAL2" => Some(22),
        "SEVERITY_NUMBER_FATAL3" => Some(23),
        "SEVERITY_NUMBER_FATAL4" => Some(24),
        _ => None,
    }
}

/// The number of a severity's name, as `SEVERITY_NUMBER_WARN2`.
pub(crate) fn severity_of(name: &str) -> Option<i64>
    ensures { result ≡ spec.severity_of name.now }
{
    if let Some(number) = low_severity(name) {
        return Some(number);
    }
    if let Some(number) = middle_severity(name) {
        return Some(number);
    }
    high_severity(name)
}

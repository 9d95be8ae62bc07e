use crate::Ended;
use gate_base::Caller;
use s3_requests::Meant;

/// A request as it is answered: who sent it, its method, what an error names, what it means, and how the connection ends
/// after the reply, if it does.
#[derive(Debug, Drop)]
pub struct ResolvedRequest<'a> {
    pub caller: Caller,
    pub method: &'a [u8],
    pub resource: &'a [u8],
    pub means: Meant,
    pub end: Option<Ended>,
}

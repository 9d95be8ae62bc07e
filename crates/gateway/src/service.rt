use gate_base::{Copying, Memory};
use s3_machine::Settings;
use sigv4::Keys;

/// What connections are served by: the settings of the service, and the keys that sign requests to it.
#[derive(Debug, Drop)]
pub struct Service {
    pub settings: Settings,
    pub keys: Keys,
}

impl Copying for Service {
    fn copy(&self) -> Result<Service, Memory> {
        Ok(Service {
            settings: self.settings.copy()?,
            keys: self.keys.copy()?,
        })
    }
}

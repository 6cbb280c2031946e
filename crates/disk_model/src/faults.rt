ghost use Rattle.std.specs.Prelude.{◌≡◌, is_ok};
ghost use Rattle.disk_model.specs.Faults.{faults_after};

use crate::disk::DeviceFault;

/// What a device answers where a call came out so, with a fault counted.
pub fn outcome<E: Drop>(done: Result<(), E>, failures: &mut u64) -> Result<(), DeviceFault>
    ensures answer { is_ok result ≡ is_ok done }
    ensures counted { failures.new ≡ faults_after result failures.old }
{
    match done {
        Ok(()) => Ok(()),
        Err(_) => {
            *failures = failures.saturating_add(1);
            Err(DeviceFault)
        }
    }
}

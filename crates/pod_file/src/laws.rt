//! What every pod file that is read keeps, and what every generated plan does. The functions do nothing: what they
//! ensure are the laws, and a proof above this crate gets them by calling the function, or by the lemma that its answer
//! names.

ghost use Rattle.std.specs.Prelude.{◌≡◌, ◌+◌, ◌/◌, ◌≤◌, ℕ, All, List, Ok, Option, length, true};
ghost use Rattle.std.specs.List.{list_all};
ghost use Rattle.std.specs.Str.{bytes_eq};
ghost use Rattle.serde_json.specs.Data.{Data};
ghost use Rattle.kernel_types.specs.declared.object.Host.{Host};
ghost use Rattle.net_conf.specs.WellFormed.{IsWellFormedList};
ghost use Rattle.pod_file.specs.Commands.{faults_at, stop_at};
ghost use Rattle.pod_file.specs.Generator.{generated, generated_list, most_containers, network_name};
ghost use Rattle.pod_file.specs.Opening.{opening_of};
ghost use Rattle.pod_file.specs.PodFile.{pods_of};
ghost use Rattle.pod_file.specs.Rounds.{in_file_order};
ghost use Rattle.pod_file.specs.WellFormed.{IsCallNumber, IsOpening, IsStop, IsWellFormedPods};
ghost use Rattle.pod_file.specs.declared.place.Place.{Place};
ghost use Rattle.pod_file.specs.declared.pods.Pods.{Pods};

/// A pod file that is read is well formed: its opening is a sound host that has namespaces and links made outside, and
/// nothing else; its commands are numbered from 1 in file order; there are at most 65,536 commands and 65,536 rounds; a
/// command that must stand alone does; a flush has its table; and each fault is 1 to 4,294,967,295. What is read of an
/// opening, a stop and faults by themselves keeps the same.
pub fn pod_file_laws()
    ensures well_formed { (bytes : List ℕ) (pods : Pods) → pods_of bytes ≡ Ok pods → IsWellFormedPods pods }
    ensures opening { (d : Data) (host : Host) → opening_of d ≡ Ok host → IsOpening host }
    ensures stop { (place : Place) (d : Data) (stop : Option ℕ) → stop_at place d ≡ Ok stop → IsStop stop }
    ensures faults { (place : Place) (d : Data) (faults : List ℕ) → faults_at place d ≡ Ok faults
        → All IsCallNumber faults }
{}

/// A generated plan keeps what everything keeps that is read: its list and its pods are well formed. All of its
/// commands are of its own network; for 1, 10 and 1000 containers they are 4, 29 and 2751.
pub fn generator_laws()
    ensures list { IsWellFormedList generated_list }
    ensures pods { (n : ℕ) → n ≤ most_containers → IsWellFormedPods (generated n).pods }
    ensures network { (n : ℕ)
        → list_all (λ command. bytes_eq command.network network_name) (in_file_order (generated n).pods.rounds) ≡ true }
    ensures count { (n : ℕ) → length (in_file_order (generated n).pods.rounds) ≡ n + n + n / 2 + 1 + (n + 3) / 4 }
{}

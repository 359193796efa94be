// The theorems on the bytes of a problem. Each function carries one in its contract.
ghost use Rattle.problem.specs.Rendering.{GrantedIsRendering, GrantedIsSound, ReadsTheListing};

// Bytes are granted exactly where they are the rendering of a lawful listing.
pub fn granted_is_rendering()
    ensures granted_exactly_renderings { GrantedIsRendering }
{}

// The problem read from the rendering of a lawful listing is the one that it lists.
pub fn reads_the_listing()
    ensures listings_are_read_back { ReadsTheListing }
{}

// A granted problem names only facts that there are, and none of its steps sets and clears one fact.
pub fn granted_is_sound()
    ensures granted_problems_are_sound { GrantedIsSound }
{}

//! The limits of steps, of depth and of nesting: at the limit, and one past it.

/// 5,000,000 steps, 100,000 levels of depth, of which the first is an assignment's, vectors 200 deep.
pub(crate) const BUDGETS: &str = "function r(n)=n==0?0:1+r(n-1); x=r(5000); ~ 5000 @50008
function r(n)=n==0?0:1+r(n-1); x=r(33331); ~ 33331 @333318
function r(n)=n==0?0:1+r(n-1); x=r(33332); ~ budget 3 1:15
function r(n)=n==0?0:r(n-1); x=r(49998); ~ budget 3 1:15
function r(n)=n==0?0:r(n-1); x=r(49997); ~ 0 @399984
function r(n)=n==0?0:1+r(n-1); x=r(600); ~ 600 @6008
function n(k)=k==0?[]:[n(k-1)]; x=len(n(199)); ~ 1 @21700
function n(k)=k==0?[]:[n(k-1)]; x=len(n(200)); ~ budget 3 1:23
x=[0,for(i=[0:1666663]) 0][0]; ~ budget 2 1:3
x=[0,for(i=[0:1666662]) 0][0]; ~ 0 @4999999
x=len([0,for(i=[0:1666663]) 0]); ~ budget 2 1:7
x=[0,for(i=[0:1666663]) 0]; y=1; ~ budget 2 1:29
x=![0,for(i=[0:1666663]) 0]; ~ budget 2 1:4
x=[for(i=[0:3000000]) i]; ~ budget 2 1:4
x=[for(i=0;true;i=i+1) i]; ~ budget 2 1:19
x=len([for(i=[0:99999]) i]); ~ 100000 @300007
v=[for(i=[0:99999]) i]; x=[for(i=[0:9]) v[i*1000]]; ~ [0, 1000, 2000, 3000, 4000, 5000, 6000, 7000, 8000, 9000] @300082
x=str([for(i=[0:999]) i])[5]; ~ \",\" @7899
x=len([each [1:4999993]]); ~ 4999993 @5000000
x=len([each [1:4999994]]); ~ budget 2 1:7
x=len([each [0:0.000001:1000000000]]); ~ budget 2 1:7
x=[each each [0:0.000001:1000000000], each [1000000000:-0.000001:0]]; ~ budget 2 1:3
x=[each [0:0.000001:1000000000], 1/0]; ~ fault 8 1:35 
function n(k)=k==0?[]:[n(k-1)]; x=[each [0:0.000001:1000000000], n(199)]; ~ budget 3 1:35";
